ghost use Rattle.std.specs.Prelude.{◌≡◌, ◌≤◌, ◌<◌, ◌↔◌, ◌+◌, ◌-◌, ◌++◌, ℕ, List, drop, length};
ghost use Rattle.std.specs.Prelude.{Ok, Err};
ghost use Rattle.std.specs.Prelude.{IfOk, IfErr, IfSome, OnOk};
ghost use Rattle.serde_json.specs.View.{view};
ghost use Rattle.an_base.specs.Faults.{Rises};
ghost use Rattle.an_harvest.specs.Feed.{Change, Page, changes_after, changes_of, page_items};
ghost use Rattle.an_harvest.specs.Feed.{page_of};
ghost use Rattle.an_harvest.specs.Live.{IsLive, Tells};
ghost use Rattle.an_harvest.specs.Walk.{ComesTo, Ends, IfRefused, Stops, pages, told, walk};
ghost use Rattle.an_harvest.specs.declared.fetch.Got.{Got};

use crate::fetch::Fetch;
use crate::getting::{FeedTold, PageTold, get_feed, get_page};
use crate::known::Known;
use crate::latest::{merged, note_page};
use an_base::Text;
use std::alloc::{AllocError, Global};
use std::collections::BTreeMap;

/// Why there is no harvest.
#[derive(Debug, PartialEq, Eq, Drop)]
pub enum HarvestError {
    /// The fetch failed.
    Fetch,
    /// An answer has another status than 200.
    Status { status: u16 },
    /// What was got for this target is no stream, or no page of it as it is due.
    Form { target: Text },
    Memory,
}

impl From<AllocError> for HarvestError {
    ghost use Rattle.an_harvest.specs.declared.harvesting.HarvestError.TheVariants.{Memory};

    ghost from_gives = { λ e error. error ≡ Memory };

    fn from(_error: AllocError) -> HarvestError {
        HarvestError::Memory
    }
}

/// What lives after a stream of changes, of which this is known already. The walk gets the stream
/// and its last page, and then one page before the other, as far as is known (IIIF Change Discovery
/// API 1.0, section 4).
pub fn harvest<F: Fetch>(
    alloc: Global,
    fetch: &mut F,
    base: &str,
    known: &Known,
) -> Result<Known, HarvestError>
    ensures live { IfOk result (λ found. (changes : List Change)
        × ComesTo (F.answers fetch.old) (walk base.now known.now.items) (Ends found.items changes)
        × IsLive known.now.objects changes found.objects) }
    ensures refused { IfErr result (λ e. IfRefused e
        (ComesTo (F.answers fetch.old) (walk base.now known.now.items) (Stops e))) }
    ensures same { (other : List ℕ) (got : Got) → F.answers fetch.new other got
        ↔ F.answers fetch.old other got }
    ensures fault { result ≡ Err HarvestError.Fetch
        → Rises (F.faults fetch.old) (F.faults fetch.new) }
    ensures faults_kept { F.faults fetch.old ≤ F.faults fetch.new }
{
    let feed = match get_feed(alloc, fetch, base, known.items()) {
        Ok(feed) => feed,
        Err(error) => return Err(error),
    };
    let FeedTold { total, last } = feed;
    let latest = match walk_pages(alloc, fetch, base, known.items(), total, last) {
        Ok(latest) => latest,
        Err(error) => return Err(error),
    };
    Ok(merged(alloc, known, latest, total)?)
}

/// Walks over the pages from the last one on, as far as is known.
fn walk_pages<F: Fetch>(
    alloc: Global,
    fetch: &mut F,
    base: &str,
    known: u64,
    total: u64,
    last: Text,
) -> Result<BTreeMap<String, Option<bool>>, HarvestError>
    requires within { known ≤ total }
    ensures noted { IfOk result (λ latest. (changes : List Change)
        × ComesTo (F.answers fetch.old) (pages base.now known total total last)
        (Ends total changes) × Tells changes latest) }
    ensures refused { IfErr result (λ e. IfRefused e
        (ComesTo (F.answers fetch.old) (pages base.now known total total last) (Stops e))) }
    ensures same { (other : List ℕ) (got : Got) → F.answers fetch.new other got
        ↔ F.answers fetch.old other got }
    ensures fault { result ≡ Err HarvestError.Fetch
        → Rises (F.faults fetch.old) (F.faults fetch.new) }
    ensures faults_kept { F.faults fetch.old ≤ F.faults fetch.new }
{
    let mut latest = BTreeMap::new(alloc);
    let mut end = total;
    let mut target = last;
    'pages: loop {
        let step = match get_noted(alloc, fetch, &mut latest, base, known, end, target.as_str()) {
            Ok(step) => step,
            Err(error) => return Err(error),
        };
        let Step { start, next } = step;
        match next {
            Some(next) => {
                end = start;
                target = next;
            }
            None => return Ok(latest),
        }
    }
}

/// Where a page starts that was got, and the target of the page to get next.
#[derive(Drop)]
struct Step {
    start: u64,
    next: Option<Text>,
}

/// Gets a page that has to end at this place, and notes its changes after those that are known.
fn get_noted<F: Fetch>(
    alloc: Global,
    fetch: &mut F,
    latest: &mut BTreeMap<String, Option<bool>>,
    base: &str,
    known: u64,
    end: u64,
    target: &str,
) -> Result<Step, HarvestError>
    requires within { known ≤ end }
    ensures noted { IfOk result (λ step. (page : Page)
        × ((got : Got) × F.answers fetch.old target.now got
        × (told target.now (page_of base.now known end) got ≡ Ok page))
        × (step.start ≡ page.start) × (step.next ≡ page.next)
        × ((later : List Change) → Tells later latest.old
        → Tells (changes_after known page ++ later) latest.new)) }
    ensures falls { IfOk result (λ step.
        IfSome step.next (λ _. (known ≤ step.start) × (step.start < end))) }
    ensures refused { IfErr result (λ e. IfRefused e ((got : Got)
        × F.answers fetch.old target.now got
        × (told target.now (page_of base.now known end) got ≡ Err e))) }
    ensures same { (other : List ℕ) (got : Got) → F.answers fetch.new other got
        ↔ F.answers fetch.old other got }
    ensures fault { result ≡ Err HarvestError.Fetch
        → Rises (F.faults fetch.old) (F.faults fetch.new) }
    ensures faults_kept { F.faults fetch.old ≤ F.faults fetch.new }
{
    match get_page(alloc, fetch, base, known, end, target) {
        Ok(page) => noted_page(alloc, latest, known, page),
        Err(error) => Err(error),
    }
}

fn noted_page(
    alloc: Global,
    latest: &mut BTreeMap<String, Option<bool>>,
    known: u64,
    page: PageTold,
) -> Result<Step, HarvestError>
    requires within { known ≤ page.start + length (page_items (view page.tree)) }
    ensures start { IfOk result (λ step. step.start ≡ page.start) }
    ensures next { IfOk result (λ step. step.next ≡ page.next) }
    ensures noted { OnOk result ((later : List Change) → Tells later latest.old
        → Tells (changes_of (drop (known - page.start) (page_items (view page.tree))) ++ later)
        latest.new) }
    ensures memory { IfErr result (λ e. e ≡ HarvestError.Memory) }
{
    let PageTold { tree, start, next } = page;
    match note_page(alloc, latest, known, start, &tree) {
        Ok(()) => Ok(Step { start, next }),
        Err(_) => Err(HarvestError::Memory),
    }
}
