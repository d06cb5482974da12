//! What a command asks for, once its tree is read.
ghost use Rattle.std.specs.Prelude.{◌≡◌, IfOk, None, Ok, Some};
ghost use Rattle.std.specs.Result.{result_map_both};
ghost use Rattle.an_base.specs.Outcome.{Gives};
ghost use Rattle.an_manifest.specs.Manifest.{manifest_of};
ghost use Rattle.an_model.specs.Note.{note_of};
ghost use Rattle.an_policy.specs.Reader.{reader_of};
ghost use Rattle.an_machine.specs.Asked.{asked_of, asked_manifest, asked_note};
ghost use Rattle.an_policy.specs.Group.{is_private};
ghost use Rattle.an_machine.specs.Asked.{manifest_asked, manifest_under, no_manifest, no_note};
ghost use Rattle.an_machine.specs.Asked.{no_reader};
ghost use Rattle.an_state.specs.Commands.{object_of};

use crate::command::Refused;
use an_base::{Name, Tree, TryCopy, copy_both};
use an_manifest::{KeptSheet, SheetError, read_manifest};
use an_model::{KeptNote, NoteError};
use an_policy::{Group, Inner, Reader, ReaderError, read_reader};
use an_state::{Command, Object, object_of};
use std::alloc::{AllocError, Global};

/// A manifest to put, and what is kept of its tree.
#[derive(Drop)]
pub struct ManifestPut {
    pub name: Name,
    pub version: u32,
    pub group: Group,
    pub sheet: KeptSheet,
}

/// An annotation to put, and what is kept of its tree.
#[derive(Drop)]
pub struct NotePut {
    pub owner: Name,
    pub name: Name,
    pub version: u32,
    pub manifest: Name,
    pub group: Inner,
    pub note: KeptNote,
}

/// What a command asks for.
#[derive(Drop)]
pub enum Asked {
    /// It has the name and the version of its row.
    Reader(Reader),
    Manifest(ManifestPut),
    Note(NotePut),
    Deletion { object: Object, version: u32 },
}

/// What a command asks for; or why its tree is refused.
pub(crate) fn asked_of(alloc: Global, command: &Command) -> Result<Asked, Refused>
    ensures asked { Gives (λ a. a) Refused.Memory result (asked_of command.now) }
    ensures manifest { IfOk result (λ a. manifest_asked a ≡ manifest_under command.now) }
{
    match command {
        Command::PutReader {
            name,
            version,
            tree,
        } => reader_to_put(alloc, name, *version, tree.get()),
        Command::PutManifest {
            name,
            version,
            group,
            tree,
        } => if is_private(group) {
            Err(Refused::PrivateManifest)
        } else {
            manifest_to_put(alloc, name, *version, group, tree.get())
        },
        Command::PutNote {
            owner,
            name,
            version,
            manifest,
            group,
            tree,
        } => note_to_put(alloc, owner, name, *version, manifest, group, tree.get()),
        Command::DropReader { version, .. } => deletion(command, *version),
        Command::DropManifest { version, .. } => deletion(command, *version),
        Command::DropNote { version, .. } => deletion(command, *version),
    }
}

fn reader_to_put(alloc: Global, name: &Name, version: u32, tree: &Tree) -> Result<Asked, Refused>
    ensures asked { Gives (λ a. a) Refused.Memory result
        (result_map_both Asked.Reader no_reader (reader_of tree.now name.now version)) }
    ensures manifest { IfOk result (λ a. manifest_asked a ≡ None) }
{
    let reader = read_reader(alloc, tree.as_value(), name.copy()?, version)?;
    Ok(Asked::Reader(reader))
}

/// No manifest is private.
fn is_private(group: &Group) -> bool
    ensures { result ≡ is_private group.now }
{
    matches!(group, Group::Private)
}

fn manifest_to_put(
    alloc: Global,
    name: &Name,
    version: u32,
    group: &Group,
    tree: &Tree,
) -> Result<Asked, Refused>
    ensures asked { Gives (λ a. a) Refused.Memory result
        (result_map_both (asked_manifest name.now version group.now) no_manifest
        (manifest_of tree.now)) }
    ensures manifest { IfOk result (λ a. manifest_asked a ≡ None) }
{
    let sheet = read_manifest(alloc, tree.as_value())?;
    let sheet = KeptSheet::keep(alloc, &sheet)?;
    let put = manifest_put(name, version, group, sheet)?;
    Ok(Asked::Manifest(put))
}

fn manifest_put(
    name: &Name,
    version: u32,
    group: &Group,
    sheet: KeptSheet,
) -> Result<ManifestPut, AllocError>
    ensures { IfOk result (λ put. put
        ≡ record { name = name.now; version = version; group = group.now; sheet = sheet }) }
{
    Ok(ManifestPut {
        name: name.copy()?,
        version,
        group: group.copy()?,
        sheet,
    })
}

fn note_to_put(
    alloc: Global,
    owner: &Name,
    name: &Name,
    version: u32,
    manifest: &Name,
    group: &Inner,
    tree: &Tree,
) -> Result<Asked, Refused>
    ensures asked { Gives (λ a. a) Refused.Memory result
        (result_map_both (asked_note owner.now name.now version manifest.now group.now) no_note
        (note_of tree.now)) }
    ensures manifest { IfOk result (λ a. manifest_asked a ≡ Some manifest.now) }
{
    let note = KeptNote::read(alloc, tree.as_value())?;
    let put = note_put(owner, name, version, manifest, group, note)?;
    Ok(Asked::Note(put))
}

fn note_put(
    owner: &Name,
    name: &Name,
    version: u32,
    manifest: &Name,
    group: &Inner,
    note: KeptNote,
) -> Result<NotePut, AllocError>
    ensures { IfOk result (λ put. put ≡ record {
      owner = owner.now;
      name = name.now;
      version = version;
      manifest = manifest.now;
      group = group.now;
      note = note;
    }) }
{
    let (owner, name) = copy_both(owner, name)?;
    let (manifest, group) = copy_both(manifest, group)?;
    Ok(NotePut {
        owner,
        name,
        version,
        manifest,
        group,
        note,
    })
}

fn deletion(command: &Command, version: u32) -> Result<Asked, Refused>
    ensures asked { Gives (λ a. a) Refused.Memory result
        (Ok (Asked.Deletion (object_of command.now) version)) }
    ensures manifest { IfOk result (λ a. manifest_asked a ≡ None) }
{
    let object = object_of(command)?;
    Ok(Asked::Deletion { object, version })
}

// ---- why a tree is refused

impl From<ReaderError> for Refused {
    ghost use Rattle.an_machine.specs.Asked.{no_reader};

    ghost from_gives = { λ e refused. refused ≡ no_reader e };

    fn from(error: ReaderError) -> Refused {
        match error {
            ReaderError::Memory => Refused::Memory,
            _ => Refused::ReaderTree(error),
        }
    }
}

impl From<SheetError> for Refused {
    ghost use Rattle.an_machine.specs.Asked.{no_manifest};

    ghost from_gives = { λ e refused. refused ≡ no_manifest e };

    fn from(error: SheetError) -> Refused {
        match error {
            SheetError::Memory => Refused::Memory,
            _ => Refused::ManifestTree(error),
        }
    }
}

impl From<NoteError> for Refused {
    ghost use Rattle.an_machine.specs.Asked.{no_note};

    ghost from_gives = { λ e refused. refused ≡ no_note e };

    fn from(error: NoteError) -> Refused {
        match error {
            NoteError::Memory => Refused::Memory,
            _ => Refused::NoteTree(error),
        }
    }
}
