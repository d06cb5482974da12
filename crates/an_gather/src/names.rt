ghost use Rattle.std.specs.Prelude.{◌≡◌};
ghost use Rattle.std.specs.Option.{option_copied};
ghost use Rattle.an_gather.specs.Gather.{bad_names, bad_piece};

use an_base::{Text, is_name};

/// The number, from 0, of the first piece that is no name, where a value is given. Takes no memory.
pub(crate) fn bad_names(given: Option<&Text>) -> Option<usize>
    ensures bad { result ≡ bad_names (option_copied given.entry) }
{
    match given {
        Some(value) => bad_piece(value.as_str()),
        None => None,
    }
}

fn bad_piece(value: &str) -> Option<usize>
    ensures { result ≡ bad_piece value.now }
{
    value
        .split(' ')
        .filter(|piece| !piece.is_empty())
        .position(|piece| !is_name(piece))
}
