//! The rule on versions.
ghost use Rattle.std.specs.Prelude.{◌≡◌, ◌+◌, ◌==◌, ◌&&◌};
ghost use Rattle.std.specs.Prelude.{if◌then◌else◌, None, Ok, Err};
ghost use Rattle.std.specs.Option.{option_copied};
ghost use Rattle.an_machine.specs.Versions.{current, is_tombstone, manifest_standing};
ghost use Rattle.an_machine.specs.Versions.{note_standing, reader_standing};

use crate::command::Refused;
use crate::effect::Effect;
use an_state::{ManifestRow, NoteRow, ReaderRow};

/// How an object stands: the number of its row, where it has one, and whether that row is live.
#[derive(Clone, Copy, Debug, PartialEq, Eq)]
pub struct Standing {
    pub version: Option<u32>,
    pub live: bool,
}

pub(crate) fn reader_standing(row: Option<&ReaderRow>) -> Standing
    ensures { result ≡ reader_standing (option_copied row.entry) }
{
    match row {
        Some(row) => Standing {
            version: Some(row.version()),
            live: row.reader().is_some(),
        },
        None => Standing {
            version: None,
            live: false,
        },
    }
}

pub(crate) fn manifest_standing(row: Option<&ManifestRow>) -> Standing
    ensures { result ≡ manifest_standing (option_copied row.entry) }
{
    match row {
        Some(row) => Standing {
            version: Some(row.version()),
            live: row.is_live(),
        },
        None => Standing {
            version: None,
            live: false,
        },
    }
}

pub(crate) fn note_standing(row: Option<&NoteRow>) -> Standing
    ensures { result ≡ note_standing (option_copied row.entry) }
{
    match row {
        Some(row) => Standing {
            version: Some(row.version()),
            live: row.live().is_some(),
        },
        None => Standing {
            version: None,
            live: false,
        },
    }
}

/// The number that is current: 0 without a row.
fn current(standing: Standing) -> u32
    ensures { result ≡ current standing }
{
    standing.version.unwrap_or(0)
}

/// Whether the object was deleted.
pub(crate) fn is_tombstone(standing: Standing) -> bool
    ensures { result ≡ is_tombstone standing }
{
    standing.version.is_some() && !standing.live
}

/// Whether the number is the one behind the current number.
pub(crate) fn is_behind(standing: Standing, version: u32) -> bool
    ensures { result ≡ (version == current standing + 1) }
{
    u64::from(version) == u64::from(current(standing)) + 1
}

/// Whether a deletion is the next write of its object. Only what is live is deleted.
pub(crate) fn is_next_deletion(standing: Standing, version: u32) -> bool
    ensures { result ≡ (standing.live && (version == current standing + 1)) }
{
    standing.live && is_behind(standing, version)
}

/// What becomes of a write that isn't the next of its object: with the current number, and where
/// what it asks for is done, it changes nothing.
pub(crate) fn unless_done(
    standing: Standing,
    version: u32,
    done: bool,
) -> Result<Option<Effect>, Refused>
    ensures { result ≡ (if (version == current standing) && done
        then Ok None else Err (Refused.Version (current standing))) }
{
    let current = current(standing);
    if version == current && done {
        Ok(None)
    } else {
        Err(Refused::Version { current })
    }
}
