ghost use Rattle.std.specs.Prelude.{◌≡◌, ◌+◌};
ghost use Rattle.std.specs.List.{sum_by};
ghost use Rattle.an_base.specs.Totals.{capped};
ghost use Rattle.an_slots.specs.Classed.{Ascends};
ghost use Rattle.an_slots.specs.Places.{Rises};
ghost use Rattle.an_postings.specs.Lists.{class_of, count_at};
ghost use Rattle.an_postings.specs.Totals.{counted};

use crate::class_postings::ClassPostings;
use an_slots::is_among;

/// The counts of these classes together, or the greatest number of 64 bits where that is more.
#[tactic(auto, unfolding(an_base::specs::Totals::capped))]
pub(crate) fn total_in(lists: &[ClassPostings], classes: &[usize]) -> u64
    requires ascends { Ascends class_of 0 lists.now }
    requires rises { Rises 0 classes.now }
    ensures total { result ≡ capped (sum_by (count_at lists.now) classes.now) }
{
    let mut total = 0u64;
    for own in lists {
        total = with_class(total, classes, own);
    }
    total
}

#[tactic(auto, unfolding(an_base::specs::Totals::capped))]
fn with_class(total: u64, classes: &[usize], own: &ClassPostings) -> u64
    requires rises { Rises 0 classes.now }
    ensures total { result ≡ capped (total + counted classes.now own.now) }
{
    if is_among(classes, own.class) {
        with_count(total, own.count)
    } else {
        total
    }
}

#[tactic(auto, unfolding(an_base::specs::Totals::capped))]
fn with_count(total: u64, count: u128) -> u64
    ensures total { result ≡ capped (total + count) }
{
    if count < 0x1_0000_0000_0000_0000 {
        total.saturating_add(count as u64)
    } else {
        u64::MAX
    }
}
