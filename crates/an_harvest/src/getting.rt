ghost use Rattle.std.specs.Prelude.{◌≡◌, ◌≤◌, ◌↔◌, ℕ, List, Ok, Err, IfOk, IfErr};
ghost use Rattle.std.specs.Prelude.{ok_or, codes, length, Some};
ghost use Rattle.serde_json.specs.View.{view};
ghost use Rattle.an_base.specs.Faults.{Rises};
ghost use Rattle.an_base.specs.Outcome.{Gives};
ghost use Rattle.an_harvest.specs.Feed.{feed_of, page_before, page_items, page_of};
ghost use Rattle.an_harvest.specs.Walk.{Answered, tree_in, tree_got, told};
ghost use Rattle.an_harvest.specs.declared.fetch.Got.{Got};

use crate::feed::{number_in, page_items, place_in, target_in};
use crate::fetch::{Fetch, FetchError};
use crate::harvesting::HarvestError;
use an_base::{Text, TreeError, read_tree};
use serde_json::Value;
use std::alloc::Global;

/// Gets the tree of the answer to a target.
pub(crate) fn get_tree<F: Fetch>(
    alloc: Global,
    fetch: &mut F,
    target: &str,
) -> Result<Value, HarvestError>
    ensures tree { Answered (F.answers fetch.old) target.now view result (tree_got target.now) }
    ensures same { (other : List ℕ) (got : Got) → F.answers fetch.new other got
        ↔ F.answers fetch.old other got }
    ensures fault { result ≡ Err HarvestError.Fetch
        → Rises (F.faults fetch.old) (F.faults fetch.new) }
    ensures faults_kept { F.faults fetch.old ≤ F.faults fetch.new }
{
    match fetch.get(alloc, target) {
        Ok(got) => {
            if got.status == 200 {
                tree_in(alloc, target, got.body.as_slice())
            } else {
                Err(HarvestError::Status { status: got.status })
            }
        }
        Err(FetchError::Failed) => Err(HarvestError::Fetch),
        Err(FetchError::Memory) => Err(HarvestError::Memory),
    }
}

fn tree_in(alloc: Global, target: &str, body: &[u8]) -> Result<Value, HarvestError>
    ensures tree { Gives view HarvestError.Memory result (tree_in target.now body.now) }
    ensures sound { ¬ (result ≡ Err HarvestError.Fetch) }
{
    match read_tree(alloc, body) {
        Ok(tree) => Ok(tree),
        Err(TreeError::Memory) => Err(HarvestError::Memory),
        Err(_) => Err(form(alloc, target)),
    }
}

/// The refusal of what was got for a target.
fn form(alloc: Global, target: &str) -> HarvestError
    ensures form { ¬ (result ≡ HarvestError.Memory) → result ≡ HarvestError.Form target.now }
    ensures sound { ¬ (result ≡ HarvestError.Fetch) }
{
    match Text::new(alloc, target) {
        Ok(target) => HarvestError::Form { target },
        Err(_) => HarvestError::Memory,
    }
}

/// What the stream's own body says: how many activities it has, and the target of its last page.
#[derive(Drop)]
pub(crate) struct FeedTold {
    pub(crate) total: u64,
    pub(crate) last: Text,
}

/// Gets the stream.
pub(crate) fn get_feed<F: Fetch>(
    alloc: Global,
    fetch: &mut F,
    base: &str,
    known: u64,
) -> Result<FeedTold, HarvestError>
    ensures feed { Answered (F.answers fetch.old) (codes "/changes")
        (λ feed. record { total = feed.total; last = feed.last }) result
        (told (codes "/changes") (feed_of base.now known)) }
    ensures same { (other : List ℕ) (got : Got) → F.answers fetch.new other got
        ↔ F.answers fetch.old other got }
    ensures fault { result ≡ Err HarvestError.Fetch
        → Rises (F.faults fetch.old) (F.faults fetch.new) }
    ensures faults_kept { F.faults fetch.old ≤ F.faults fetch.new }
{
    let tree = get_tree(alloc, fetch, "/changes")?;
    feed_in(alloc, base, known, &tree)
}

fn feed_in(alloc: Global, base: &str, known: u64, tree: &Value) -> Result<FeedTold, HarvestError>
    ensures feed { Gives (λ feed. record { total = feed.total; last = feed.last })
        HarvestError.Memory result (ok_or (feed_of base.now known (view tree.now))
        (HarvestError.Form (codes "/changes"))) }
    ensures sound { ¬ (result ≡ Err HarvestError.Fetch) }
{
    match number_in(tree, "totalItems") {
        Some(total) => {
            if total < known {
                return Err(form(alloc, "/changes"));
            }
            match target_in(base, tree, "last") {
                Some(last) => feed_told(alloc, total, last),
                None => Err(form(alloc, "/changes")),
            }
        }
        None => Err(form(alloc, "/changes")),
    }
}

fn feed_told(alloc: Global, total: u64, last: &str) -> Result<FeedTold, HarvestError>
    ensures ok { IfOk result (λ feed. (feed.total ≡ total) × (feed.last ≡ last.now)) }
    ensures err { IfErr result (λ e. e ≡ HarvestError.Memory) }
{
    match Text::new(alloc, last) {
        Ok(last) => Ok(FeedTold { total, last }),
        Err(_) => Err(HarvestError::Memory),
    }
}

/// What the body of a page says: where it starts, and the target of the page to get next.
#[derive(Drop)]
pub(crate) struct PageTold {
    pub(crate) tree: Value,
    pub(crate) start: u64,
    pub(crate) next: Option<Text>,
}

/// Gets a page, which has to end at this place.
pub(crate) fn get_page<F: Fetch>(
    alloc: Global,
    fetch: &mut F,
    base: &str,
    known: u64,
    end: u64,
    target: &str,
) -> Result<PageTold, HarvestError>
    ensures page { Answered (F.answers fetch.old) target.now
        (λ page. record {
          start = page.start;
          items = page_items (view page.tree);
          next = page.next;
        }) result (told target.now (page_of base.now known end)) }
    ensures same { (other : List ℕ) (got : Got) → F.answers fetch.new other got
        ↔ F.answers fetch.old other got }
    ensures fault { result ≡ Err HarvestError.Fetch
        → Rises (F.faults fetch.old) (F.faults fetch.new) }
    ensures faults_kept { F.faults fetch.old ≤ F.faults fetch.new }
{
    let tree = get_tree(alloc, fetch, target)?;
    page_in(alloc, base, known, end, target, tree)
}

fn page_in(
    alloc: Global,
    base: &str,
    known: u64,
    end: u64,
    target: &str,
    tree: Value,
) -> Result<PageTold, HarvestError>
    ensures page { Gives (λ page. record {
      start = page.start;
      items = page_items (view page.tree);
      next = page.next;
    }) HarvestError.Memory result
        (ok_or (page_of base.now known end (view tree)) (HarvestError.Form target.now)) }
    ensures sound { ¬ (result ≡ Err HarvestError.Fetch) }
{
    match place_in(end, &tree) {
        Some(start) => match next_told(alloc, base, known, start, target, &tree) {
            Ok(next) => Ok(PageTold { tree, start, next }),
            Err(error) => Err(error),
        },
        None => Err(form(alloc, target)),
    }
}

fn next_told(
    alloc: Global,
    base: &str,
    known: u64,
    start: u64,
    target: &str,
    tree: &Value,
) -> Result<Option<Text>, HarvestError>
    ensures next { Gives (λ next. next) HarvestError.Memory result
        (ok_or (page_before base.now known start (length (page_items (view tree.now)))
        (view tree.now)) (HarvestError.Form target.now)) }
    ensures sound { ¬ (result ≡ Err HarvestError.Fetch) }
{
    if start <= known {
        return Ok(None);
    }
    if page_items(tree).len() == 0 {
        return Err(form(alloc, target));
    }
    match target_in(base, tree, "prev") {
        Some(next) => some_text(alloc, next),
        None => Err(form(alloc, target)),
    }
}

fn some_text(alloc: Global, text: &str) -> Result<Option<Text>, HarvestError>
    ensures ok { IfOk result (λ copy. copy ≡ Some text.now) }
    ensures err { IfErr result (λ e. e ≡ HarvestError.Memory) }
{
    match Text::new(alloc, text) {
        Ok(text) => Ok(Some(text)),
        Err(_) => Err(HarvestError::Memory),
    }
}
