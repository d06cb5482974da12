ghost use Rattle.std.specs.Prelude.{◌≡◌, ◌&&◌, nat_le, slice_get};
ghost use Rattle.std.specs.Option.{option_copied};
ghost use Rattle.an_base.specs.Outcome.{passes};
ghost use Rattle.an_keyed.specs.MarkIndex.{mark_hash, with_place};
ghost use Rattle.an_keyed.specs.Marks.{is_mark};

use crate::hashes::short_hash;
use std::hash::{DefaultHasher, Hash, Hasher};

/// What may have a mark: a text by which it is found beside its key. Several may have one mark.
pub trait Marked {
    ghost use Rattle.std.specs.Prelude.{List, ℕ, Option};

    ghost mark: { Self → Option (List ℕ) };

    fn mark(&self) -> Option<&str>
        ensures mark { option_copied result ≡ mark self.now };
}

/// The hash of a mark. Its seed is fixed.
#[tactic(auto, unfolding(crate::specs::MarkIndex::mark_hash))]
pub(crate) fn hash_of_mark(mark: &str) -> u32
    ensures hash { result ≡ mark_hash mark.now }
{
    let mut hasher = DefaultHasher::new();
    mark.hash(&mut hasher);
    short_hash(hasher.finish())
}

/// Whether the place isn't before `start`, and has a row with this mark.
pub(crate) fn is_marked_from<R: Marked>(rows: &[R], mark: &str, start: usize, place: usize) -> bool
    ensures { result ≡ nat_le start place && passes
        (λ row. is_mark mark.now (R.mark row)) (slice_get rows.now place) }
{
    match rows.get(place) {
        Some(row) => start <= place && has_mark(row, mark),
        None => false,
    }
}

fn has_mark<R: Marked>(row: &R, mark: &str) -> bool
    ensures { result ≡ is_mark mark.now (R.mark row.now) }
{
    match row.mark() {
        Some(text) => text == mark,
        None => false,
    }
}

/// The earlier of what was found and the place, where the place counts.
pub(crate) fn with_place(counts: bool, place: usize, found: Option<usize>) -> Option<usize>
    ensures { result ≡ with_place counts place found }
{
    if !counts {
        return found;
    }
    match found {
        None => Some(place),
        Some(found) => Some(found.min(place)),
    }
}
