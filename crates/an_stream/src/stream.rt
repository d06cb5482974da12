ghost use Rattle.std.specs.Prelude.{◌≡◌, ◌≤◌, map, IfOk, Ok};
ghost use Rattle.serde_json.specs.View.{items_of};
ghost use Rattle.serde_json.specs.Written.{compact_text};
ghost use Rattle.an_base.specs.Outcome.{Gives};
ghost use Rattle.an_policy.specs.Audience.{identity};
ghost use Rattle.an_state.specs.View.{seen_by, view_of};
ghost use Rattle.an_list.specs.Page.{page_count, page_of, start_of};
ghost use Rattle.an_stream.specs.Activity.{activity};
ghost use Rattle.an_stream.specs.Stream.{changes_of, changes_page_of, changes_whole, stream_page};
ghost use Rattle.an_stream.specs.Stream.{stream_tree};

use crate::page::{changes_whole, page_text, stream_text};
use an_base::Bytes;
use an_list::{Paging, ReadError, Site};
use an_policy::Who;
use an_state::Look;
use std::alloc::{AllocError, Global};

/// The stream of the changes that the caller sees (IIIF Change Discovery API 1.0, level 2): how
/// many there are, and its first and its last page.
pub fn changes<T: Look>(
    alloc: Global,
    look: &T,
    who: &Who<'_>,
    site: &Site,
) -> Result<Bytes, ReadError>
    ensures answer { Gives (λ body. body) ReadError.Memory result
        (Ok (changes_of site.now (view_of (T.state look.now) (identity who.now)))) }
{
    Ok(whole_stream(alloc, look.seen_count(who), site)?)
}

/// The text of a stream of so many changes.
fn whole_stream(alloc: Global, total: usize, site: &Site) -> Result<Bytes, AllocError>
    ensures { IfOk result (λ text. text ≡ compact_text (stream_tree
        (changes_whole site.now.base) (page_count total site.now.size) total)) }
{
    let size = site.size();
    let paging = Paging {
        page: 1,
        size,
        total,
    };
    let whole = changes_whole(alloc, site.base())?;
    stream_text(alloc, &whole, paging.pages(), total)
}

/// A page of the stream of the changes that the caller sees, the earliest first, each with when it
/// was, what it changed, and its kind for the caller.
#[tactic(auto, unfolding(crate::specs::Stream::page_of_stream))]
pub fn changes_page<T: Look>(
    alloc: Global,
    look: &T,
    who: &Who<'_>,
    page: u32,
    site: &Site,
) -> Result<Bytes, ReadError>
    ensures answer { Gives (λ body. body) ReadError.Memory result (changes_page_of site.now
        (view_of (T.state look.now) (identity who.now)) page) }
{
    match Paging::checked(site, page, look.seen_count(who)) {
        Ok(paging) => Ok(page_there(alloc, look, who, paging, site.base())?),
        Err(error) => Err(error),
    }
}

/// The text of a page that the stream has.
fn page_there<T: Look>(
    alloc: Global,
    look: &T,
    who: &Who<'_>,
    paging: Paging,
    base: &str,
) -> Result<Bytes, AllocError>
    requires page { 1 ≤ paging.page }
    requires size { 1 ≤ paging.size }
    ensures { IfOk result (λ text. text ≡ compact_text (stream_page (changes_whole base.now)
        (page_count paging.total paging.size) paging.page (start_of paging.page paging.size)
        (items_of (map (activity base.now) (page_of paging.page paging.size
        (seen_by (identity who.now) (T.state look.now).activities)))))) }
{
    let seen = look.seen_slice(alloc, who, paging.start() as usize, paging.size as usize)?;
    let whole = changes_whole(alloc, base)?;
    page_text(alloc, base, &whole, paging, seen.as_slice())
}
