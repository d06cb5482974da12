ghost use Rattle.std.specs.Prelude.{◌≡◌};
ghost use Rattle.std.specs.Option.{option_copied};
ghost use Rattle.an_query.specs.Dates.{range_between, range_of, bad_range, bad_date};

use an_base::{Moment, Text, moment_of};

/// The moments from one to another, both among them.
#[derive(Clone, Copy, Debug, PartialEq, Eq)]
pub struct DateRange {
    pub from: Moment,
    pub to: Moment,
}

/// The number, from 0, of the first piece that is no range, where a value is given. Takes no
/// memory.
pub fn bad_date(given: Option<&Text>) -> Option<usize>
    ensures bad { result ≡ bad_date (option_copied given.entry) }
{
    match given {
        Some(value) => bad_range(value.as_str()),
        None => None,
    }
}

fn bad_range(value: &str) -> Option<usize>
    ensures { result ≡ bad_range value.now }
{
    value
        .split(' ')
        .filter(|piece| !piece.is_empty())
        .position(|piece| range_of(piece).is_none())
}

/// The range of a piece that is two texts of moments, joined by `/`. Takes no memory.
pub fn range_of(piece: &str) -> Option<DateRange>
    ensures range { result ≡ range_of piece.now }
{
    match piece.split_once('/') {
        Some((from, to)) => range_between(from, to),
        None => None,
    }
}

fn range_between(from: &str, to: &str) -> Option<DateRange>
    ensures { result ≡ range_between from.now to.now }
{
    match moment_of(from) {
        Ok(from) => match moment_of(to) {
            Ok(to) => Some(DateRange { from, to }),
            Err(_) => None,
        },
        Err(_) => None,
    }
}
