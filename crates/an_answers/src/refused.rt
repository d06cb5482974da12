ghost use Rattle.std.specs.Prelude.{◌≡◌};
ghost use Rattle.an_answers.specs.Refused.{manifest_code, note_code, reader_code, write_refusal};

use an_code::Code;
use an_machine::Refused;
use an_manifest::SheetError;
use an_model::NoteError;
use an_policy::ReaderError;

/// The code by which it is told why a write is refused. Want of memory is told otherwise.
pub fn write_refusal(refused: Refused) -> Code
    ensures refusal { result ≡ write_refusal refused }
{
    match refused {
        Refused::NotSigned => Code::NotSigned,
        Refused::NotWriter => Code::NotWriter,
        Refused::NotOwn => Code::NotOwn,
        Refused::NoManifest => Code::Absent,
        Refused::NotMember => Code::NotMember,
        Refused::ReaderTree(error) => reader_code(error),
        Refused::PrivateManifest => Code::Group,
        Refused::ManifestTree(error) => manifest_code(error),
        Refused::NoteTree(error) => note_code(error),
        Refused::GroupFixed => Code::GroupFixed,
        Refused::TokenTaken => Code::TokenTaken,
        Refused::Version { current } => Code::Version { current },
        Refused::Memory => Code::Absent,
    }
}

fn reader_code(error: ReaderError) -> Code
    ensures { result ≡ reader_code error }
{
    match error {
        ReaderError::Token => Code::ReaderToken,
        ReaderError::Role => Code::ReaderRole,
        ReaderError::User => Code::ReaderUser,
        ReaderError::Groups => Code::ReaderGroups,
        ReaderError::Memory => Code::Absent,
    }
}

fn manifest_code(error: SheetError) -> Code
    ensures { result ≡ manifest_code error }
{
    match error {
        SheetError::Version2 => Code::ManifestVersion2,
        SheetError::WrongType => Code::ManifestType,
        SheetError::Label => Code::ManifestLabel,
        SheetError::Items => Code::ManifestItems,
        SheetError::Canvas { at } => Code::ManifestCanvas { at },
        SheetError::Memory => Code::Absent,
    }
}

fn note_code(error: NoteError) -> Code
    ensures { result ≡ note_code error }
{
    match error {
        NoteError::WrongType => Code::NoteType,
        NoteError::Target { at } => Code::NoteTarget { at },
        NoteError::Selector { at } => Code::NoteSelector { at },
        NoteError::Body { at } => Code::NoteBody { at },
        NoteError::Motivation { at } => Code::NoteMotivation { at },
        NoteError::Memory => Code::Absent,
    }
}
