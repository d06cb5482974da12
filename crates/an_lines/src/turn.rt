ghost use Rattle.std.specs.Prelude.{◌≡◌, ◌++◌, ℕ, List, IfOk, IsTrue, None, Some, Ok, OnOk};
ghost use Rattle.an_answers.specs.Answer.{query_answer};
ghost use Rattle.an_state.specs.View.{view_by};
ghost use Rattle.an_lines.specs.Asked.{asked_of, is_sendable_asked};
ghost use Rattle.an_state.specs.Commands.{is_sendable};
ghost use Rattle.an_state.specs.Entries.{state_after};
ghost use Rattle.an_lines.specs.Find.{turn_of, asked_turn, write_turn, prints, writes, reply_line};
ghost use Rattle.an_lines.specs.Find.{reader};
ghost use Rattle.an_lines.specs.Turned.{Takes};
ghost use Rattle.an_lines.specs.Written.{written_of};

use crate::asked::{Asked, asked_of};
use crate::written::{stop_of, writer};
use an_answers::{NO_PREFERENCE, answer_uncounted, query_answer};
use an_base::{Moment, Name};
use an_code::Code;
use an_http::{Allow, Reply};
use an_list::Site;
use an_machine::{Decided, Refused, decide};
use an_policy::Caller;
use an_routes::Read;
use an_state::{Book, Command};
use std::alloc::{AllocError, Global};

/// Takes the turn of a line: it may print an answer, or change the book. Answers why a line is
/// refused.
#[tactic(auto, using(crate::proofs::SendableLemmas::asked_writes), unfolding(crate::specs::Find::turn_of))]
pub(crate) fn turn(
    alloc: Global,
    book: &mut Book,
    settings: &Site,
    line: &[u8],
    output: &mut Vec<u8>,
) -> Result<Option<Code>, AllocError>
    ensures { IfOk result (Takes (turn_of settings.now book.old.state line.now)
        book.old.state book.new.state output.old.items output.new.items) }
{
    match asked_of(alloc, line)? {
        Ok(asked) => asked_turn(alloc, book, settings, asked, output),
        Err(refusal) => Ok(Some(refusal)),
    }
}

fn asked_turn(
    alloc: Global,
    book: &mut Book,
    settings: &Site,
    asked: Asked,
    output: &mut Vec<u8>,
) -> Result<Option<Code>, AllocError>
    requires { IsTrue (is_sendable_asked asked) }
    ensures { IfOk result (Takes (asked_turn settings.now book.old.state (Ok asked))
        book.old.state book.new.state output.old.items output.new.items) }
{
    match asked {
        Asked::Nothing => Ok(None),
        Asked::Read { by, read } => read_turn(alloc, book, settings, by, &read, output),
        Asked::Unread { by, allow, refusal } => {
            unread_turn(alloc, book, by, allow, refusal, output)
        }
        Asked::Write {
            moment,
            by,
            command,
        } => write(alloc, book, moment, by, command),
    }
}

// ---- a line that writes

/// Writes what the machine accepts. Answers the refusal of what isn't old.
fn write(
    alloc: Global,
    book: &mut Book,
    moment: Moment,
    by: Option<Name>,
    command: Command,
) -> Result<Option<Code>, AllocError>
    requires { IsTrue (is_sendable command) }
    ensures { IfOk result (λ stop. (output : List ℕ) → Takes
        (write_turn (written_of book.old.state moment by command))
        book.old.state book.new.state output output stop) }
{
    let caller = writer(by);
    match decide(alloc, book, moment, &caller, &command) {
        Ok(decided) => apply(book, decided),
        Err(refused) => if matches!(refused, Refused::Memory) {
            Err(AllocError)
        } else {
            Ok(stop_of(command.version(), refused))
        },
    }
}

fn apply(book: &mut Book, decided: Decided) -> Result<Option<Code>, AllocError>
    ensures { IfOk result (λ stop. (output : List ℕ)
        → Takes (writes (state_after book.old.state decided.entry))
        book.old.state book.new.state output output stop) }
{
    let Decided { entry, .. } = decided;
    match entry {
        Some(entry) => {
            book.room(&entry)?;
            book.apply(entry);
            Ok(None)
        }
        None => Ok(None),
    }
}

// ---- a line that reads

/// Prints the answer to a read. No line says what it prefers.
fn read_turn(
    alloc: Global,
    book: &Book,
    settings: &Site,
    by: Option<Name>,
    read: &Read,
    output: &mut Vec<u8>,
) -> Result<Option<Code>, AllocError>
    ensures { IfOk result (Takes
        (asked_turn settings.now book.now.state (Ok (Asked.Read by read.now)))
        book.now.state book.now.state output.old.items output.new.items) }
{
    let caller = reader(by);
    let reply = answer_uncounted(alloc, book, settings, &caller, NO_PREFERENCE, read)?;
    put_reply_line(alloc, &reply, output)?;
    Ok(None)
}

/// Prints the answer to a read whose query is refused.
fn unread_turn(
    alloc: Global,
    book: &Book,
    by: Option<Name>,
    allow: Allow,
    refusal: Code,
    output: &mut Vec<u8>,
) -> Result<Option<Code>, AllocError>
    ensures { IfOk result (Takes
        (prints (reply_line (query_answer (view_by book.now.state (reader by)) allow refusal)))
        book.now.state book.now.state output.old.items output.new.items) }
{
    let caller = reader(by);
    let reply = query_answer(alloc, book, &caller, allow, refusal)?;
    put_reply_line(alloc, &reply, output)?;
    Ok(None)
}

/// Who reads a line. A line by nobody's name is the anonymous caller's.
pub(crate) fn reader(by: Option<Name>) -> Caller
    ensures { result ≡ reader by }
{
    match by {
        Some(name) => Caller::Named(name),
        None => Caller::Anonymous,
    }
}

/// Adds a reply, as a line shows it: its status and its body.
fn put_reply_line(alloc: Global, reply: &Reply, output: &mut Vec<u8>) -> Result<(), AllocError>
    ensures { OnOk result (output.new.items ≡ output.old.items ++ reply_line reply.now) }
{
    let status = reply.status.number();
    let status = format!(in alloc; "{status} ")?;
    output.extend_from_slice(status.as_bytes())?;
    output.extend_from_slice(reply.body.as_slice())?;
    output.extend_from_slice("\n".as_bytes())?;
    Ok(())
}
