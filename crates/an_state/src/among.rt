ghost use Rattle.std.specs.Prelude.{◌≡◌, ◌&&◌, IfOk, filter, slice_get};
ghost use Rattle.std.specs.Option.{option_copied};
ghost use Rattle.an_base.specs.Outcome.{passes};
ghost use Rattle.an_policy.specs.Audience.{identity};
ghost use Rattle.an_slots.specs.Places.{has};
ghost use Rattle.an_state.specs.Terms.{has_term, places_with_term};
ghost use Rattle.an_state.specs.View.{is_sought};

use crate::book::Book;
use crate::readable::{has_term, is_sought};
use an_base::Name;
use an_policy::Who;
use std::alloc::{AllocError, Global};

/// Those of the places at which there is a live annotation that has a term and that the caller may
/// read, on this manifest, or where none is named on any that it may read. The row at each place is
/// looked at, and no other.
pub fn among_with_term_in(
    alloc: Global,
    book: &Book,
    who: &Who<'_>,
    manifest: Option<&Name>,
    term: &str,
    places: &[usize],
) -> Result<Vec<usize>, AllocError>
    ensures { IfOk result (λ having. having.items ≡ filter (λ place. has place
        (places_with_term book.now.state (identity who.now) (option_copied manifest.entry)
        term.now)) places.now) }
{
    let mut having = Vec::new(alloc);
    for place in places {
        if is_there(book, *place, who, manifest, term) {
            having.push(*place)?;
        }
    }
    Ok(having)
}

/// Whether there is such an annotation at the place.
fn is_there(book: &Book, place: usize, who: &Who<'_>, manifest: Option<&Name>, term: &str) -> bool
    ensures { result ≡ passes (λ row. is_sought book.now.state (identity who.now)
        (option_copied manifest.entry) row && has_term term.now row)
        (slice_get book.now.state.notes place) }
{
    match book.notes().get(place) {
        Some(row) => is_sought(book, who, manifest, row.get()) && has_term(row.get(), term),
        None => false,
    }
}
