ghost use Rattle.std.specs.Prelude.{◌≡◌, ℕ, ◌+◌, ◌≤◌, List, filter, length, IfOk, OnOk};
ghost use Rattle.std.specs.Option.{option_map_or};
ghost use Rattle.an_base.specs.Outcome.{Gives, or_refuse};
ghost use Rattle.an_iri.specs.Iris.{note_iri};
ghost use Rattle.an_model.specs.Bodies.{texts_of};
ghost use Rattle.an_policy.specs.Audience.{identity};
ghost use Rattle.an_state.specs.Live.{lent_note};
ghost use Rattle.an_state.specs.View.{view_of};
ghost use Rattle.an_list.specs.Cost.{Takes};
ghost use Rattle.an_list.specs.Page.{start_of};
ghost use Rattle.an_pages.specs.Bodies.{missing_note};
ghost use Rattle.an_pages.specs.Container.{notes_on};
ghost use Rattle.an_anchor.specs.Comments.{anchor_item, anchors_of, anchors_text, anchors_whole};
ghost use Rattle.an_anchor.specs.Comments.{is_about, live_anchors, targets_on};
ghost use Rattle.an_anchor.specs.Cost.{anchors_cost};
ghost use Rattle.an_anchor.specs.Walk.{HasCounted};
ghost use Rattle.an_anchor.specs.declared.comment.Comment.{Comment};
ghost use Rattle.an_anchor.specs.declared.counted.Window.{Window};

use crate::counted::{Counted, Window};
use crate::counting::{Asked, count_on};
use crate::written::anchors_text;
use an_base::{Bytes, Name, Steps, Text};
use an_iri::{anchors_iri, note_iri};
use an_list::{PagedList, Paging, ReadError, Site};
use an_pages::missing_note;
use an_policy::Who;
use an_state::{LiveNote, Look, NoteRow, shown_note};
use std::alloc::{AllocError, Global};
use std::sync::ledger::Ledger;

/// A page of the comments on an annotation, each with where it holds in the annotation's texts.
/// Comments are the annotations on the same manifest that the caller may read and that are about
/// this one (Web Annotation Data Model, section 3.2). An annotation that the caller may not read is
/// gone or absent as on its own route. It takes a step for each annotation on the manifest that the
/// caller may read.
#[tactic(auto, unfolding(crate::specs::Comments::anchors_of))]
pub fn anchors<T: Look, L: Ledger>(
    alloc: Global,
    look: &T,
    who: &Who<'_>,
    owner: &Name,
    name: &Name,
    page: u32,
    site: &Site,
    steps: &mut Steps<L>,
) -> Result<Bytes, ReadError>
    ensures answer { Gives (λ body. body) ReadError.Memory result (anchors_of site.now
        (view_of (T.state look.now) (identity who.now)) owner.now name.now page) }
    ensures steps { Takes ReadError.Memory result steps.old steps.new
        (anchors_cost (view_of (T.state look.now) (identity who.now)) owner.now name.now) }
    ensures steps_most { steps.new ≤ steps.old
        + anchors_cost (view_of (T.state look.now) (identity who.now)) owner.now name.now }
    ensures steps_least { steps.old ≤ steps.new }
{
    match shown_note(look, who, owner, name) {
        Some(row) => row_anchors(alloc, look, who, owner, name, row, page, site, steps),
        None => Err(missing_note(look, who, owner, name)),
    }
}

/// The same, where the annotation has this row.
fn row_anchors<T: Look, L: Ledger>(
    alloc: Global,
    look: &T,
    who: &Who<'_>,
    owner: &Name,
    name: &Name,
    row: &NoteRow,
    page: u32,
    site: &Site,
    steps: &mut Steps<L>,
) -> Result<Bytes, ReadError>
    ensures answer { Gives (λ body. body) ReadError.Memory result
        (or_refuse (missing_note (view_of (T.state look.now) (identity who.now)) owner.now name.now)
        row.now.live (live_anchors site.now (view_of (T.state look.now) (identity who.now))
        owner.now name.now page)) }
    ensures steps { Takes ReadError.Memory result steps.old steps.new (option_map_or (λ live.
        length (notes_on (view_of (T.state look.now) (identity who.now)) live.manifest))
        row.now.live 0) }
    ensures steps_most { steps.new ≤ steps.old + option_map_or (λ live.
        length (notes_on (view_of (T.state look.now) (identity who.now)) live.manifest))
        row.now.live 0 }
    ensures steps_least { steps.old ≤ steps.new }
{
    match row.live() {
        Some(live) => live_anchors(alloc, look, who, owner, name, &live, page, site, steps),
        None => Err(missing_note(look, who, owner, name)),
    }
}

/// The same, where this is what it says.
fn live_anchors<T: Look, L: Ledger>(
    alloc: Global,
    look: &T,
    who: &Who<'_>,
    owner: &Name,
    name: &Name,
    live: &LiveNote<'_>,
    page: u32,
    site: &Site,
    steps: &mut Steps<L>,
) -> Result<Bytes, ReadError>
    ensures answer { Gives (λ body. body) ReadError.Memory result (live_anchors site.now
        (view_of (T.state look.now) (identity who.now)) owner.now name.now page
        (lent_note live.now)) }
    ensures steps { Takes ReadError.Memory result steps.old steps.new (length
        (notes_on (view_of (T.state look.now) (identity who.now)) live.now.manifest.now)) }
    ensures steps_most { steps.new ≤ steps.old + length
        (notes_on (view_of (T.state look.now) (identity who.now)) live.now.manifest.now) }
    ensures steps_least { steps.old ≤ steps.new }
{
    let base = site.base();
    let whole = anchors_whole(alloc, base, owner, name)?;
    let window = Window::of(page, site.size());
    let counted = count_comments(alloc, look, who, owner, name, live, base, window, steps)?;
    anchors_page(alloc, site, &whole, page, &counted)
}

fn anchors_whole(
    alloc: Global,
    base: &str,
    owner: &Name,
    name: &Name,
) -> Result<PagedList, AllocError>
    ensures { IfOk result (λ whole. whole ≡ anchors_whole base.now owner.now name.now) }
{
    let path = anchors_iri(alloc, base, owner, name)?;
    Ok(PagedList {
        path: Text::from_string(path),
        parameters: Text::from_string(String::new(alloc)),
    })
}

/// The page of this number, of which the walk has written the items.
fn anchors_page(
    alloc: Global,
    site: &Site,
    whole: &PagedList,
    page: u32,
    counted: &Counted,
) -> Result<Bytes, ReadError>
    ensures { (texts : List (List ℕ)) (comments : List Comment) (window : Window)
        → window.start ≡ start_of page site.now.size → window.size ≡ site.now.size
        → HasCounted (anchor_item site.now.base texts) window comments counted.now
        → Gives (λ body. body) ReadError.Memory result
        (anchors_text site.now whole.now page texts comments) }
{
    match Paging::checked(site, page, counted.total) {
        Ok(paging) => Ok(anchors_text(alloc, whole, paging, counted.items.as_slice())?),
        Err(error) => Err(error),
    }
}

/// Walks over the annotations on the manifest that the caller may read.
fn count_comments<T: Look, L: Ledger>(
    alloc: Global,
    look: &T,
    who: &Who<'_>,
    owner: &Name,
    name: &Name,
    live: &LiveNote<'_>,
    base: &str,
    window: Window,
    steps: &mut Steps<L>,
) -> Result<Counted, AllocError>
    ensures counted { IfOk result (HasCounted (anchor_item base.now (texts_of live.now.tree.now))
        window (filter (is_about (note_iri base.now owner.now name.now)) (targets_on
        (view_of (T.state look.now) (identity who.now)) live.now.manifest.now))) }
    ensures steps { OnOk result (steps.new ≡ steps.old + length
        (notes_on (view_of (T.state look.now) (identity who.now)) live.now.manifest.now)) }
    ensures steps_most { steps.new ≤ steps.old + length
        (notes_on (view_of (T.state look.now) (identity who.now)) live.now.manifest.now) }
    ensures steps_least { steps.old ≤ steps.new }
{
    let iri = note_iri(alloc, base, owner, name)?;
    let texts = live.tree.texts(alloc)?;
    let asked = Asked {
        base,
        iri: iri.as_str(),
        texts: texts.as_slice(),
        window,
    };
    count_on(alloc, look, who, live.manifest, &asked, steps)
}
