ghost use Rattle.std.specs.Prelude.{◌≡◌, IfOk, IsTrue, option_and_then, option_map};
ghost use Rattle.std.specs.Option.{option_copied};
ghost use Rattle.an_base.specs.Outcome.{Gives};
ghost use Rattle.an_policy.specs.Audience.{identity};
ghost use Rattle.an_machine.specs.Accepted.{by_whom, decided, effect_of, moment_of_write};
ghost use Rattle.an_machine.specs.Asked.{manifest_asked};
ghost use Rattle.an_state.specs.Commands.{is_sendable, object_of};
ghost use Rattle.an_machine.specs.Refusals.{signer_of};
ghost use Rattle.an_state.specs.State.{manifest_row};
ghost use Rattle.an_machine.specs.Step.{judged, step, step_by};
ghost use Rattle.an_state.specs.declared.entry.Entry.TheVariants.{Done};

use crate::asked::{Asked, asked_of};
use crate::changes::by_whom;
use crate::command::{Decided, Refused, WriteReply};
use crate::deletion::delete;
use crate::effect::Effect;
use crate::put_manifest::put_manifest;
use crate::put_note::put_note;
use crate::put_reader::put_reader;
use crate::refusal::permit;
use an_base::{Moment, TryCopy};
use an_policy::{Caller, Who};
use an_state::{Book, Command, Entry, Look, ManifestRow, Object, entry_of_write, object_of};
use std::alloc::{AllocError, Global};

/// Decides a write, whose number is from 1 to 999,999,999 and whose group is a group: the first
/// refusal in their order, or what is written. A write that was done already has no entry.
#[tactic(auto, unfolding(crate::specs::Step::step))]
pub fn decide(
    alloc: Global,
    book: &Book,
    moment: Moment,
    caller: &Caller,
    command: &Command,
) -> Result<Decided, Refused>
    requires sendable { IsTrue (is_sendable command.now) }
    ensures decided { Gives (λ d. d) Refused.Memory result
        (step book.now.state moment caller.now command.now) }
{
    match signer(book, caller) {
        Some(who) => decide_by(alloc, book, moment, &who, command),
        None => Err(Refused::NotSigned),
    }
}

/// Who signs a write: the operator, or a live reader.
fn signer<'a>(book: &'a Book, caller: &Caller) -> Option<Who<'a>>
    ensures { option_map identity result ≡ signer_of book.now.state caller.now }
{
    match book.who(caller) {
        Some(who) => match who {
            Who::Anonymous => None,
            Who::Operator => Some(Who::Operator),
            Who::Signed(reader) => Some(Who::Signed(reader)),
        },
        None => None,
    }
}

/// The row of a manifest is looked up where an annotation is put on it, and handed on.
fn decide_by(
    alloc: Global,
    book: &Book,
    moment: Moment,
    who: &Who<'_>,
    command: &Command,
) -> Result<Decided, Refused>
    ensures { Gives (λ d. d) Refused.Memory result
        (step_by book.now.state moment command.now (identity who.now)) }
{
    let object = object_of(command)?;
    let manifest = permit(book, who, &object, command)?;
    let asked = asked_of(alloc, command)?;
    let at = moment_of_write(book, moment);
    let effect = judge(alloc, book, who, at, manifest, asked)?;
    Ok(decided(who, at, object, command, effect)?)
}

/// A write has the given moment, but is no earlier than the last activity.
fn moment_of_write(book: &Book, moment: Moment) -> Moment
    ensures { result ≡ moment_of_write book.now.state moment }
{
    match book.activities().last() {
        Some(activity) => {
            let last = activity.get().at;
            if moment.seconds() < last.seconds() {
                last
            } else {
                moment
            }
        }
        None => moment,
    }
}

/// What a write changes whose tree is read. An annotation is put on this manifest.
fn judge(
    alloc: Global,
    book: &Book,
    who: &Who<'_>,
    at: Moment,
    manifest: Option<&ManifestRow>,
    asked: Asked,
) -> Result<Option<Effect>, Refused>
    requires manifest { option_copied manifest
        ≡ option_and_then (manifest_row book.now.state) (manifest_asked asked) }
    ensures { Gives (λ e. e) Refused.Memory result
        (judged book.now.state asked (effect_of book.now.state (identity who.now) at asked)) }
{
    match asked {
        Asked::Reader(put) => put_reader(alloc, book, put),
        Asked::Manifest(put) => put_manifest(alloc, book, who, at, put),
        Asked::Note(put) => put_note(alloc, book, who, at, manifest, put),
        Asked::Deletion { object, version } => delete(alloc, book, who, at, &object, version),
    }
}

/// The entry is the command with what it changes. A write that changes nothing has none.
fn decided(
    who: &Who<'_>,
    at: Moment,
    object: Object,
    command: &Command,
    effect: Option<Effect>,
) -> Result<Decided, AllocError>
    requires object { object ≡ object_of command.now }
    ensures { IfOk result (λ d. d ≡ decided (identity who.now) at command.now effect) }
{
    let version = command.version();
    match effect {
        Some(effect) => {
            let made = effect.made;
            let entry = entry_of(who, at, command, effect)?;
            Ok(Decided {
                entry: Some(entry),
                reply: WriteReply {
                    object,
                    version,
                    made,
                    repeat: false,
                },
            })
        }
        None => Ok(Decided {
            entry: None,
            reply: WriteReply {
                object,
                version,
                made: false,
                repeat: true,
            },
        }),
    }
}

fn entry_of(
    who: &Who<'_>,
    at: Moment,
    command: &Command,
    effect: Effect,
) -> Result<Entry, AllocError>
    ensures { IfOk result (λ entry. entry ≡ Done
        command.now at (by_whom (identity who.now)) effect.rows effect.activities) }
{
    let by = by_whom(who)?;
    entry_of_write(command, at, by, effect.rows, effect.activities)
}
