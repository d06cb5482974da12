//! The writes of the trial.
ghost use Rattle.std.specs.Prelude.{◌≡◌, ◌+◌, pos, codes, IfOk, IsTrue, string_bytes};
ghost use Rattle.an_policy.specs.Group.{is_valid_group};
ghost use Rattle.an_policy.specs.Inner.{one_group};
ghost use Rattle.an_trial.specs.Writes.{group_of, manifest_write, note_name, note_write};
ghost use Rattle.an_trial.specs.Writes.{reader_write, start, word_of, words_text};

use crate::draws::Draws;
use crate::names::{name, note_name};
use crate::trees::{manifest_tree, note_tree, reader_tree};
use an_base::{Moment, Shared, Tree};
use an_policy::{Caller, Group, Inner, one_group};
use an_state::Command;
use std::alloc::{AllocError, Global};

/// The first moment: 2024-05-01T10:00:00Z.
const START: i64 = 1_714_557_600;

/// A command, who sends it, and when.
#[derive(Debug, Drop)]
pub struct Write {
    pub moment: Moment,
    pub caller: Caller,
    pub command: Command,
}

/// The operator puts the reader.
pub(crate) fn reader_write(alloc: Global) -> Result<Write, AllocError>
    ensures value { IfOk result (λ write. write ≡ reader_write) }
{
    Ok(Write {
        moment: moment_behind(0),
        caller: Caller::Operator,
        command: Command::PutReader {
            name: name(alloc, "t")?,
            version: 1,
            tree: reader_tree(alloc)?,
        },
    })
}

/// The operator puts the manifest.
pub(crate) fn manifest_write(alloc: Global) -> Result<Write, AllocError>
    ensures value { IfOk result (λ write. write ≡ manifest_write) }
{
    Ok(Write {
        moment: moment_behind(0),
        caller: Caller::Operator,
        command: Command::PutManifest {
            name: name(alloc, "m1")?,
            version: 1,
            group: Group::Public,
            tree: manifest_tree(alloc)?,
        },
    })
}

/// The reader puts the annotation with this number.
pub(crate) fn note_write(alloc: Global, number: u32, draws: Draws) -> Result<Write, AllocError>
    ensures value { IfOk result (λ write. write ≡ note_write number draws) }
{
    let text = words_text(alloc, draws)?;
    let tree = note_tree(alloc, text.as_str())?;
    Ok(Write {
        moment: moment_behind(number),
        caller: Caller::Named(name(alloc, "t")?),
        command: put_note(alloc, number, draws.group, tree)?,
    })
}

fn put_note(
    alloc: Global,
    number: u32,
    drawn: u32,
    tree: Shared<Tree>,
) -> Result<Command, AllocError>
    ensures { IfOk result (λ command. command ≡ Command.PutNote
        (codes "t") (note_name number) 1 (codes "m1") (one_group (group_of drawn)) tree) }
{
    Ok(Command::PutNote {
        owner: name(alloc, "t")?,
        name: note_name(alloc, number)?,
        version: 1,
        manifest: name(alloc, "m1")?,
        group: inner_of(alloc, drawn)?,
        tree,
    })
}

/// The moment so many seconds behind the first.
fn moment_behind(seconds: u32) -> Moment
    ensures { result ≡ pos (start + seconds) }
{
    match Moment::new(START + i64::from(seconds)) {
        Some(moment) => moment,
        None => unreachable!(),
    }
}

/// The inner groups that are the one group.
fn inner_of(alloc: Global, drawn: u32) -> Result<Inner, AllocError>
    ensures { IfOk result (λ inner. inner ≡ one_group (group_of drawn)) }
{
    let group = group_of(alloc, drawn)?;
    one_group(alloc, group)
}

/// Every fourth draw gives the reader's group.
fn group_of(alloc: Global, drawn: u32) -> Result<Group, AllocError>
    ensures group { IfOk result (λ group. group ≡ group_of drawn) }
    ensures valid { IfOk result (λ group. IsTrue (is_valid_group group)) }
{
    if drawn % 4 == 0 {
        Ok(Group::Named(name(alloc, "a")?))
    } else {
        Ok(Group::Public)
    }
}

fn words_text(alloc: Global, draws: Draws) -> Result<String, AllocError>
    ensures { IfOk result (λ text. string_bytes text
        ≡ words_text draws.first draws.second draws.third) }
{
    let first = word_of(draws.first);
    let second = word_of(draws.second);
    let third = word_of(draws.third);
    format!(in alloc; "{first} {second} {third}")
}

fn word_of(drawn: u32) -> &'static str
    ensures { result.now ≡ word_of drawn }
{
    match drawn % 8 {
        0 => "heron",
        1 => "swan",
        2 => "gull",
        3 => "tern",
        4 => "crane",
        5 => "stork",
        6 => "ibis",
        _ => "egret",
    }
}
