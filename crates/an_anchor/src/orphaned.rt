ghost use Rattle.std.specs.Prelude.{◌≡◌, ◌+◌, ◌∷◌, ◌++◌, ◌≤◌, [], Bool, List, filter, length, map};
ghost use Rattle.std.specs.Prelude.{IfOk, OnOk};
ghost use Rattle.an_base.specs.Outcome.{Gives};
ghost use Rattle.an_policy.specs.Audience.{identity};
ghost use Rattle.an_state.specs.View.{view_of};
ghost use Rattle.an_list.specs.Cost.{Takes};
ghost use Rattle.an_list.specs.Page.{start_of};
ghost use Rattle.an_pages.specs.Container.{notes_on};
ghost use Rattle.an_anchor.specs.Comments.{orphan_item, orphans, orphans_of, orphans_text};
ghost use Rattle.an_anchor.specs.Comments.{orphans_whole};
ghost use Rattle.an_anchor.specs.Cost.{orphans_cost};
ghost use Rattle.an_anchor.specs.Walk.{HasCounted};
ghost use Rattle.an_anchor.specs.declared.comment.Comment.{Comment};
ghost use Rattle.an_anchor.specs.declared.counted.Window.{Window};

use crate::anchored::orphan;
use crate::comment::Comment;
use crate::counted::{Counted, Window, none_counted, pass_by, write_counted};
use crate::lost::lost_among;
use crate::targets::comments_on;
use crate::written::orphans_text;
use an_base::{Bytes, Name, Steps, Text};
use an_iri::orphans_iri;
use an_list::{PagedList, Paging, ReadError, Site};
use an_policy::Who;
use an_state::{Look, shown_manifest};
use std::alloc::{AllocError, Global};
use std::sync::ledger::Ledger;

/// A page of the orphans on a manifest that the caller may read: the comments whose annotation the
/// caller may not read, or in whose texts their selectors are nowhere (Web Annotation Data Model,
/// section 4.2). A hidden manifest is answered as one that never was. It takes a step for each
/// annotation on the manifest that the caller may read.
#[tactic(auto, unfolding(crate::specs::Comments::orphans_of))]
pub fn orphans<T: Look, L: Ledger>(
    alloc: Global,
    look: &T,
    who: &Who<'_>,
    manifest: &Name,
    page: u32,
    site: &Site,
    steps: &mut Steps<L>,
) -> Result<Bytes, ReadError>
    ensures answer { Gives (λ body. body) ReadError.Memory result (orphans_of site.now
        (view_of (T.state look.now) (identity who.now)) manifest.now page) }
    ensures steps { Takes ReadError.Memory result steps.old steps.new
        (orphans_cost (view_of (T.state look.now) (identity who.now)) manifest.now) }
    ensures steps_most { steps.new ≤ steps.old
        + orphans_cost (view_of (T.state look.now) (identity who.now)) manifest.now }
    ensures steps_least { steps.old ≤ steps.new }
{
    match shown_manifest(look, who, manifest) {
        Some(_) => orphans_shown(alloc, look, who, manifest, page, site, steps),
        None => Err(ReadError::Absent),
    }
}

fn orphans_shown<T: Look, L: Ledger>(
    alloc: Global,
    look: &T,
    who: &Who<'_>,
    manifest: &Name,
    page: u32,
    site: &Site,
    steps: &mut Steps<L>,
) -> Result<Bytes, ReadError>
    ensures body { Gives (λ body. body) ReadError.Memory result (orphans_text site.now
        (orphans_whole site.now.base manifest.now) page (orphans site.now
        (view_of (T.state look.now) (identity who.now)) manifest.now)) }
    ensures steps { Takes ReadError.Memory result steps.old steps.new (length
        (notes_on (view_of (T.state look.now) (identity who.now)) manifest.now)) }
    ensures steps_most { steps.new ≤ steps.old + length
        (notes_on (view_of (T.state look.now) (identity who.now)) manifest.now) }
    ensures steps_least { steps.old ≤ steps.new }
{
    let whole = orphans_whole(alloc, site.base(), manifest)?;
    let window = Window::of(page, site.size());
    let counted = count_orphans(alloc, look, who, manifest, site, window, steps)?;
    orphans_page(alloc, site, &whole, page, &counted)
}

fn orphans_whole(alloc: Global, base: &str, manifest: &Name) -> Result<PagedList, AllocError>
    ensures { IfOk result (λ whole. whole ≡ orphans_whole base.now manifest.now) }
{
    let path = orphans_iri(alloc, base, manifest.as_str())?;
    Ok(PagedList {
        path: Text::from_string(path),
        parameters: Text::from_string(String::new(alloc)),
    })
}

/// The page of this number, of which the items are written.
fn orphans_page(
    alloc: Global,
    site: &Site,
    whole: &PagedList,
    page: u32,
    counted: &Counted,
) -> Result<Bytes, ReadError>
    ensures { (orphans : List Comment) (window : Window)
        → window.start ≡ start_of page site.now.size → window.size ≡ site.now.size
        → HasCounted (orphan_item site.now.base) window orphans counted.now
        → Gives (λ body. body) ReadError.Memory result
        (orphans_text site.now whole.now page orphans) }
{
    match Paging::checked(site, page, counted.total) {
        Ok(paging) => Ok(orphans_text(alloc, whole, paging, counted.items.as_slice())?),
        Err(error) => Err(error),
    }
}

/// Finds the comments on the manifest, and judges them.
fn count_orphans<T: Look, L: Ledger>(
    alloc: Global,
    look: &T,
    who: &Who<'_>,
    manifest: &Name,
    site: &Site,
    window: Window,
    steps: &mut Steps<L>,
) -> Result<Counted, AllocError>
    ensures counted { IfOk result (HasCounted (orphan_item site.now.base) window (orphans site.now
        (view_of (T.state look.now) (identity who.now)) manifest.now)) }
    ensures steps { OnOk result (steps.new ≡ steps.old + length
        (notes_on (view_of (T.state look.now) (identity who.now)) manifest.now)) }
    ensures steps_most { steps.new ≤ steps.old + length
        (notes_on (view_of (T.state look.now) (identity who.now)) manifest.now) }
    ensures steps_least { steps.old ≤ steps.new }
{
    let base = site.base();
    let comments = comments_on(alloc, look, who, manifest, base, steps)?;
    let lost = lost_among(alloc, look, who, base, comments.as_slice())?;
    count_lost(alloc, comments.as_slice(), lost.as_slice(), base, window)
}

/// Counts those of the comments that are lost.
fn count_lost(
    alloc: Global,
    comments: &[Comment],
    lost: &[bool],
    base: &str,
    window: Window,
) -> Result<Counted, AllocError>
    requires each { length lost.now ≡ length comments.now }
    ensures { IfOk result (λ counted. (is_lost : Comment → Bool)
        → lost.now ≡ map is_lost comments.now
        → HasCounted (orphan_item base.now) window (filter is_lost comments.now) counted) }
{
    let mut counted = none_counted(alloc);
    for place in 0..comments.len() {
        let comment = &comments[place];
        if lost[place] {
            counted = count_orphan(alloc, counted, comment, base, window)?;
        }
    }
    Ok(counted)
}

fn count_orphan(
    alloc: Global,
    counted: Counted,
    comment: &Comment,
    base: &str,
    window: Window,
) -> Result<Counted, AllocError>
    ensures { IfOk result (λ new. (orphans : List Comment)
        → HasCounted (orphan_item base.now) window orphans counted
        → HasCounted (orphan_item base.now) window (orphans ++ comment.now ∷ []) new) }
{
    if window.has_place(counted.total) {
        let nowhere = orphan(alloc);
        let counted = write_counted(
            alloc,
            counted,
            base,
            &comment.owner,
            &comment.name,
            comment.number,
            &nowhere,
        )?;
        Ok(counted)
    } else {
        let counted = pass_by(counted, 1)?;
        Ok(counted)
    }
}
