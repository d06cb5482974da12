ghost use Rattle.std.specs.Prelude.{◌≡◌, ◌&&◌, IfOk, filter, slice_get};
ghost use Rattle.std.specs.Option.{option_copied};
ghost use Rattle.an_base.specs.Outcome.{passes};
ghost use Rattle.an_policy.specs.Audience.{identity};
ghost use Rattle.an_postings.specs.Lists.{IsOrdered, places_at};
ghost use Rattle.an_slots.specs.Places.{Rises, has, places_from};
ghost use Rattle.an_state.specs.Terms.{has_term};
ghost use Rattle.an_listed.specs.Filed.{reads, reads_within};
ghost use Rattle.an_listed.specs.Stands.{Stands};

use crate::asks::{classes_read, text_within};
use crate::filed::Filed;
use crate::register::Register;
use an_base::Name;
use an_policy::{Classes, Who};
use an_postings::{ClassPostings, is_listed, length_of};
use std::alloc::{AllocError, Global};

/// The lists of a term are merged and walked along where they are at most so many times as long as
/// the places that are looked for. Else each place is looked up.
const WALKED: usize = 16;

impl Register {
    /// How many places all lists of a term have together, on a manifest, or where none is named on
    /// all.
    pub(crate) fn term_weight(&self, manifest: Option<&Name>, term: &str) -> usize {
        let lists = self.lists_within(manifest);
        length_of(lists.lists_of(text_within(manifest), term))
    }

    /// Those of the places, which ascend, whose rows are on the manifest, where one is named, and
    /// have the term, and which the caller may read. Either is done that costs less.
    pub(crate) fn among_with_term(
        &self,
        alloc: Global,
        rows: &[Filed],
        classes: &Classes,
        who: &Who<'_>,
        manifest: Option<&Name>,
        term: &str,
        places: &[usize],
    ) -> Result<Vec<usize>, AllocError>
        requires stands { Stands self.now rows.now }
        requires rise { Rises 0 places.now }
        ensures having { IfOk result (λ having. having.items ≡ filter (λ place. has place
            (places_from (λ row. reads_within (identity who.now) classes.now
            (option_copied manifest.entry) row && has_term term.now row.note) 0 rows.now))
            places.now) }
    {
        let lists = self.lists_within(manifest);
        let text = text_within(manifest);
        let own = lists.lists_of(text, term);
        if length_of(own) / WALKED > places.len() {
            return looked_up(alloc, own, rows, classes, who, places);
        }
        let read = classes_read(alloc, lists, text, term, classes, who)?;
        lists.common(alloc, text, term, read.as_slice(), places)
    }
}

/// The same by the list of the class of each row.
fn looked_up(
    alloc: Global,
    lists: &[ClassPostings],
    rows: &[Filed],
    classes: &Classes,
    who: &Who<'_>,
    places: &[usize],
) -> Result<Vec<usize>, AllocError>
    requires ordered { IsOrdered lists.now }
    ensures having { IfOk result (λ having. having.items ≡ filter (λ place. passes
        (λ row. has place (places_at lists.now row.class)
        && reads (identity who.now) classes.now row.class)
        (slice_get rows.now place)) places.now) }
{
    let mut having = Vec::new(alloc);
    for place in places {
        if is_readable_in(lists, rows, classes, who, *place) {
            having.push(*place)?;
        }
    }
    Ok(having)
}

/// Whether there is a row at the place which is in the list of its class, and the caller may read
/// this class.
fn is_readable_in(
    lists: &[ClassPostings],
    rows: &[Filed],
    classes: &Classes,
    who: &Who<'_>,
    place: usize,
) -> bool
    requires ordered { IsOrdered lists.now }
    ensures { result ≡ passes (λ row. has place (places_at lists.now row.class)
        && reads (identity who.now) classes.now row.class) (slice_get rows.now place) }
{
    match rows.get(place) {
        Some(row) => is_listed(lists, row.class, place) && classes.readable(who, row.class),
        None => false,
    }
}
