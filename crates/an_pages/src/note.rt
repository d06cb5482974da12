ghost use Rattle.std.specs.Prelude.{◌≡◌, IfOk, option_and_then};
ghost use Rattle.an_base.specs.Outcome.{Gives};
ghost use Rattle.an_policy.specs.Audience.{identity};
ghost use Rattle.an_policy.specs.Seen.{is_deletion};
ghost use Rattle.an_state.specs.Live.{lent_note};
ghost use Rattle.an_state.specs.View.{note_in, view_of};
ghost use Rattle.an_pages.specs.Bodies.{shown_live, note_body, missing_note, annotation_of_view};

use an_base::{Bytes, Name};
use an_iri::note_iri;
use an_keyed::Keyed;
use an_list::{ReadError, Site};
use an_policy::{Kind, Who};
use an_served::push_shown;
use an_state::{LiveNote, Look, NoteRow, shown_note};
use std::alloc::{AllocError, Global};

/// The context of annotations (Web Annotation Data Model).
pub(crate) const NOTE_CONTEXT: &str = "http://www.w3.org/ns/anno.jsonld";

/// An annotation as the caller is shown it on its own route (Web Annotation Protocol, section 3).
/// One that the caller may not read is gone where the last change of it that the caller sees, by
/// the groups it has now, is its deletion or its move out of sight; otherwise it is absent, hidden
/// or not.
#[tactic(auto, unfolding(crate::specs::Bodies::annotation_of_view))]
pub fn annotation<T: Look>(
    alloc: Global,
    look: &T,
    who: &Who<'_>,
    owner: &Name,
    name: &Name,
    site: &Site,
) -> Result<Bytes, ReadError>
    ensures answer { Gives (λ body. body) ReadError.Memory result (annotation_of_view site.now
        (view_of (T.state look.now) (identity who.now)) owner.now name.now) }
{
    match shown_body(alloc, look, who, owner, name, site) {
        Ok(body) => match body {
            Some(body) => Ok(body),
            None => Err(missing_note(look, who, owner, name)),
        },
        Err(_) => Err(ReadError::Memory),
    }
}

/// The text by which an annotation is shown that the caller may read.
fn shown_body<T: Look>(
    alloc: Global,
    look: &T,
    who: &Who<'_>,
    owner: &Name,
    name: &Name,
    site: &Site,
) -> Result<Option<Bytes>, AllocError>
    ensures body { IfOk result (λ body. body ≡ option_and_then (note_body site.now)
        (note_in (view_of (T.state look.now) (identity who.now)) owner.now name.now)) }
{
    match shown_note(look, who, owner, name) {
        Some(row) => note_body(alloc, row, site),
        None => Ok(None),
    }
}

/// Why an annotation that the caller may not read isn't shown: it is gone where the last change of
/// it that the caller sees, by the groups it has now, is its deletion or its move out of sight, and
/// absent otherwise. Takes no memory.
pub fn missing_note<T: Look>(look: &T, who: &Who<'_>, owner: &Name, name: &Name) -> ReadError
    ensures why { result
        ≡ missing_note (view_of (T.state look.now) (identity who.now)) owner.now name.now }
{
    match look.last_change(who, Some(owner), name) {
        Some(kind) => if is_deletion(kind) {
            ReadError::Gone
        } else {
            ReadError::Absent
        },
        None => ReadError::Absent,
    }
}

fn is_deletion(kind: Kind) -> bool
    ensures { result ≡ is_deletion kind }
{
    matches!(kind, Kind::Delete)
}

/// The text by which an annotation's row is shown, while it is live.
fn note_body(alloc: Global, row: &NoteRow, site: &Site) -> Result<Option<Bytes>, AllocError>
    ensures { IfOk result (λ body. body ≡ note_body site.now row.now) }
{
    match row.live() {
        Some(live) => Ok(Some(shown_live(alloc, row, &live, site)?)),
        None => Ok(None),
    }
}

/// The text by which an annotation is shown: as lists give it, with the context of annotations.
fn shown_live(
    alloc: Global,
    row: &NoteRow,
    live: &LiveNote<'_>,
    site: &Site,
) -> Result<Bytes, AllocError>
    ensures { IfOk result (λ body. body ≡ shown_live site.now row.now (lent_note live.now)) }
{
    let iri = note_iri(alloc, site.base(), row.owned_by(), row.name())?;
    let creator = live.creator.get().as_str();
    let text = push_shown(
        Vec::new(alloc),
        live.tree,
        NOTE_CONTEXT,
        iri.as_str(),
        creator,
        live.created,
        live.modified,
    )?;
    Ok(Bytes::from_vec(text))
}
