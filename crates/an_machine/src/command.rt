ghost use Rattle.std.specs.Prelude.{◌≡◌};

use an_manifest::SheetError;
use an_model::NoteError;
use an_policy::ReaderError;
use an_state::{Entry, Object};
use std::alloc::AllocError;

/// What a write is answered with.
#[derive(Debug, Drop, PartialEq, Eq)]
pub struct WriteReply {
    pub object: Object,
    pub version: u32,
    /// Whether the object is there now and wasn't before.
    pub made: bool,
    /// Whether the write had been done already.
    pub repeat: bool,
}

/// A write that isn't refused.
#[derive(Debug, Drop)]
pub struct Decided {
    /// What it changes; there is nothing where it had been done already.
    pub entry: Option<Entry>,
    pub reply: WriteReply,
}

/// Why a write is refused, in the order in which the reasons are tested.
#[derive(Clone, Copy, Debug, PartialEq, Eq)]
pub enum Refused {
    /// The caller is anonymous, or no live reader has its token or name.
    NotSigned,
    /// The caller may not write such an object.
    NotWriter,
    /// The annotation isn't the caller's.
    NotOwn,
    /// There is no such manifest that the caller may read.
    NoManifest,
    /// The caller is no member of the annotation's group.
    NotMember,
    /// The tree describes no reader.
    ReaderTree(ReaderError),
    /// A manifest is put that is private.
    PrivateManifest,
    /// The tree is no manifest.
    ManifestTree(SheetError),
    /// The tree is no annotation.
    NoteTree(NoteError),
    /// The manifest has another group.
    GroupFixed,
    /// Another live reader has the token.
    TokenTaken,
    /// The write is neither the next of its object nor done already. The row's number is
    /// `current`, or 0 without a row.
    Version { current: u32 },
    /// Memory ran out. It may stand in place of any answer.
    Memory,
}

impl From<AllocError> for Refused {
    ghost use Rattle.an_machine.specs.declared.command.Refused.TheVariants.{Memory};

    ghost from_gives = { λ e refused. refused ≡ Memory };

    fn from(_error: AllocError) -> Refused {
        Refused::Memory
    }
}
