ghost use Rattle.std.specs.Prelude.{◌≡◌, ◌+◌, ◌++◌, ◌<◌, ◌≤◌, ◌∷◌, [], IfOk, false, filter};
ghost use Rattle.std.specs.Prelude.{if◌then◌else◌, slice_index_or, vec_capacity, vec_len};
ghost use Rattle.std.specs.List.{All};
ghost use Rattle.an_slots.specs.Places.{has};
ghost use Rattle.an_postings.specs.Marks.{AreMarks};

use crate::merge::one_if;
use std::alloc::{AllocError, Global};

/// Those of the places that are among others, by a table that ends where the others do.
pub(crate) fn common_by_marks(
    alloc: Global,
    places: &[usize],
    others: &[u32],
    end: usize,
) -> Result<Vec<usize>, AllocError>
    requires others { All (λ other. other < end) others.now }
    ensures common { IfOk result (λ common. common.items
        ≡ filter (λ place. has place others.now) places.now) }
{
    let marks = marks_of(alloc, others, end)?;
    marked(alloc, places, marks.as_slice())
}

/// For each place below the end whether it is among these.
fn marks_of(alloc: Global, places: &[u32], end: usize) -> Result<Vec<bool>, AllocError>
    requires places { All (λ place. place < end) places.now }
    ensures marks { IfOk result (λ marks. AreMarks places.now marks.items) }
{
    let mut marks = vec![in alloc; false; end]?;
    for place in places {
        marks[*place as usize] = true;
    }
    Ok(marks)
}

/// Those of the places that are marked.
fn marked(alloc: Global, places: &[usize], marks: &[bool]) -> Result<Vec<usize>, AllocError>
    ensures marked { IfOk result (λ marked. marked.items
        ≡ filter (λ place. slice_index_or marks.now place false) places.now) }
{
    let mut marked = Vec::with_capacity(alloc, places.len())?;
    for place in places {
        push_if(&mut marked, *place, is_marked(marks, *place));
    }
    Ok(marked)
}

fn is_marked(marks: &[bool], place: usize) -> bool
    ensures { result ≡ slice_index_or marks.now place false }
{
    place < marks.len() && marks[place]
}

/// Adds the place, where it is wanted. It doesn't branch, since whether the next one is wanted
/// can't be foreseen.
pub(crate) fn push_if(places: &mut Vec<usize>, place: usize, wanted: bool)
    requires room { vec_len places.old < vec_capacity places.old }
    ensures items { places.new.items ≡ (if wanted
        then places.old.items ++ place ∷ [] else places.old.items) }
    ensures len { vec_len places.new ≤ vec_len places.old + 1 }
    ensures capacity { vec_capacity places.new ≡ vec_capacity places.old }
{
    let len = places.len();
    places.push_reserved(place);
    places.truncate(len + one_if(wanted));
}
