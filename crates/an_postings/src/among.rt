ghost use Rattle.std.specs.Prelude.{◌≡◌};
ghost use Rattle.an_slots.specs.Places.{has};
ghost use Rattle.an_postings.specs.Lists.{IsOrdered, places_at};

use crate::class_postings::{ClassPostings, place_of};

/// Whether the place is in the list of this class, among the lists of a term. It takes no memory,
/// and looks at few places of this list, and at no other.
pub fn is_listed(lists: &[ClassPostings], class: usize, place: usize) -> bool
    requires ordered { IsOrdered lists.now }
    ensures listed { result ≡ has place (places_at lists.now class) }
{
    match place_of(lists, class) {
        Ok(at) => lists[at].places.has(place),
        Err(_) => false,
    }
}

/// How many places are in these lists together. Nothing is promised of it: it is for choosing
/// between ways to the same answer.
pub fn length_of(lists: &[ClassPostings]) -> usize {
    let mut length = 0usize;
    for list in lists {
        length = length.saturating_add(list.places.len());
    }
    length
}
