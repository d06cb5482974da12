ghost use Rattle.std.specs.Prelude.{◌≡◌, ◌∷◌, ◌++◌, [], IfOk};
ghost use Rattle.std.specs.List.{filter_map};
ghost use Rattle.serde_json.specs.View.{items_of};
ghost use Rattle.serde_json.specs.Written.{compact_text};
ghost use Rattle.an_base.specs.Write.{item_commas};
ghost use Rattle.an_state.specs.Live.{lent_note};
ghost use Rattle.an_list.specs.Listed.{listed_live, listed_note};

use an_base::push_comma;
use an_iri::note_iri;
use an_keyed::Keyed;
use an_served::push_dressed;
use an_state::{LiveNote, NoteRow};
use std::alloc::{AllocError, Global};

/// Writes an annotation as an item of a list, behind a comma. `base` is the start of its IRI.
/// Nothing where it was deleted.
pub(crate) fn push_listed(
    alloc: Global,
    out: Vec<u8>,
    base: &str,
    row: &NoteRow,
) -> Result<Vec<u8>, AllocError>
    ensures text { IfOk result (λ v. v.items
        ≡ out.items ++ item_commas (items_of (filter_map (listed_note base.now) (row.now ∷ [])))) }
{
    match row.live() {
        Some(live) => {
            let out = push_comma(out)?;
            let out = push_live(alloc, out, base, row, &live)?;
            Ok(out)
        }
        None => Ok(out),
    }
}

fn push_live(
    alloc: Global,
    out: Vec<u8>,
    base: &str,
    row: &NoteRow,
    live: &LiveNote<'_>,
) -> Result<Vec<u8>, AllocError>
    ensures text { IfOk result (λ v. v.items
        ≡ out.items ++ compact_text (listed_live base.now row.now (lent_note live.now))) }
{
    let iri = note_iri(alloc, base, row.owned_by(), row.name())?;
    let creator = live.creator.get().as_str();
    let out = push_dressed(
        out,
        live.tree,
        iri.as_str(),
        creator,
        live.created,
        live.modified,
    )?;
    Ok(out)
}
