ghost use Rattle.std.specs.Prelude.{◌≡◌, ◌+◌, ◌-◌, ◌<◌, ◌≤◌, ◌^◌, IfOk, IsSome, IsTrue, OnErr};
ghost use Rattle.std.specs.Prelude.{Result, if◌then◌else◌};
ghost use Rattle.an_base.specs.Faults.{Rises};
ghost use Rattle.an_state.specs.Commands.{is_sendable};
ghost use Rattle.an_state.specs.State.{State};
ghost use Rattle.an_machine.specs.declared.command.Decided.{Decided};
ghost use Rattle.an_machine.specs.declared.command.Refused.{Refused};
ghost use Rattle.an_shelf.specs.Writing.{IsRefused};
ghost use Rattle.an_answers.specs.Refused.{write_refusal};
ghost use Rattle.an_lines.specs.Asked.{is_sendable_asked};
ghost use Rattle.an_lines.specs.Import.{import_line, import_asked, import_written, with_old};
ghost use Rattle.an_lines.specs.Shown.{Leads, StaysOrLeads};
ghost use Rattle.an_lines.specs.Written.{is_old, written_by, written_of};

use crate::asked::{Asked, asked_of};
use crate::counts::{Counts, with_done, with_old};
use crate::written::{is_old, writer};
use an_answers::write_refusal;
use an_base::{Moment, Name};
use an_code::Code;
use an_keep::{KeepError, Keeper};
use an_machine::Refused;
use an_shelf::{Desk, WriteError};
use an_state::Command;
use std::alloc::Global;

/// Applies a line of an import, and counts it. Answers why it is refused. Where memory runs out it
/// may be applied all the same.
#[tactic(auto, using(crate::proofs::SendableLemmas::asked_writes), unfolding(crate::specs::Import::import_line))]
pub(crate) fn import_line<K: Keeper>(
    alloc: Global,
    desk: &mut Desk<K>,
    counts: Counts,
    line: &[u8],
) -> Result<Result<Counts, Code>, KeepError>
    requires { counts.accepted + counts.repeated + counts.old < 2 ^ 64 - 1 }
    ensures leads { IfOk result (Leads
        (import_line (record { state = desk.old.state; counts = counts }) line.now)
        desk.old.state desk.new.state) }
    ensures lost { OnErr result (StaysOrLeads
        (import_line (record { state = desk.old.state; counts = counts }) line.now)
        desk.old.state desk.new.state) }
    ensures counted { result ≡ Err KeepError.Failed → Rises desk.old.faults desk.new.faults }
    ensures faults_kept { desk.old.faults ≤ desk.new.faults }
    ensures told { IsSome desk.new.told → IsSome desk.old.told }
{
    match asked_of(alloc, line)? {
        Ok(asked) => import_asked(alloc, desk, counts, asked),
        Err(refusal) => Ok(Err(refusal)),
    }
}

/// A read is no line of an import.
fn import_asked<K: Keeper>(
    alloc: Global,
    desk: &mut Desk<K>,
    counts: Counts,
    asked: Asked,
) -> Result<Result<Counts, Code>, KeepError>
    requires sendable { IsTrue (is_sendable_asked asked) }
    requires count { counts.accepted + counts.repeated + counts.old < 2 ^ 64 - 1 }
    ensures leads { IfOk result (Leads (import_asked counts desk.old.state (Ok asked))
        desk.old.state desk.new.state) }
    ensures lost { OnErr result (StaysOrLeads (import_asked counts desk.old.state (Ok asked))
        desk.old.state desk.new.state) }
    ensures counted { result ≡ Err KeepError.Failed → Rises desk.old.faults desk.new.faults }
    ensures faults_kept { desk.old.faults ≤ desk.new.faults }
    ensures told { IsSome desk.new.told → IsSome desk.old.told }
{
    match asked {
        Asked::Nothing => Ok(Ok(counts)),
        Asked::Read { .. } => Ok(Err(Code::Line)),
        Asked::Unread { .. } => Ok(Err(Code::Line)),
        Asked::Write {
            moment,
            by,
            command,
        } => import_write(alloc, desk, counts, (moment, by), command),
    }
}

/// Writes what the machine accepts. The stamp is the moment of the line and whose it is.
fn import_write<K: Keeper>(
    alloc: Global,
    desk: &mut Desk<K>,
    counts: Counts,
    stamp: (Moment, Option<Name>),
    command: Command,
) -> Result<Result<Counts, Code>, KeepError>
    requires sendable { IsTrue (is_sendable command) }
    requires count { counts.accepted + counts.repeated + counts.old < 2 ^ 64 - 1 }
    ensures leads { IfOk result (Leads
        (import_written counts desk.old.state
        (written_of desk.old.state stamp.0 stamp.1 command))
        desk.old.state desk.new.state) }
    ensures lost { OnErr result (StaysOrLeads
        (import_written counts desk.old.state
        (written_of desk.old.state stamp.0 stamp.1 command))
        desk.old.state desk.new.state) }
    ensures counted { result ≡ Err KeepError.Failed → Rises desk.old.faults desk.new.faults }
    ensures faults_kept { desk.old.faults ≤ desk.new.faults }
    ensures told { IsSome desk.new.told → IsSome desk.old.told }
{
    let (moment, by) = stamp;
    let version = command.version();
    let caller = writer(by);
    match desk.write(alloc, moment, &caller, command) {
        Ok(reply) => Ok(Ok(with_done(reply.repeat, counts))),
        Err(error) => unwritten(version, counts, error),
    }
}

/// What comes of a write that isn't done.
fn unwritten(
    version: u32,
    counts: Counts,
    error: WriteError,
) -> Result<Result<Counts, Code>, KeepError>
    requires { counts.accepted + counts.repeated + counts.old < 2 ^ 64 - 1 }
    ensures leads { (decided : Result Decided Refused) → (s : State) → IsRefused decided error
        → IfOk result (Leads (import_written counts s (written_by s version decided)) s s) }
    ensures counted { result ≡ Err KeepError.Failed → error ≡ WriteError.Keeper }
{
    match error {
        WriteError::Refused(refused) => Ok(refused_line(version, counts, refused)),
        WriteError::Keeper => Err(KeepError::Failed),
        WriteError::Memory => Err(KeepError::Memory),
    }
}

/// Passes over an old write, and counts it. Answers another refusal.
fn refused_line(version: u32, counts: Counts, refused: Refused) -> Result<Counts, Code>
    requires { counts.accepted + counts.repeated + counts.old < 2 ^ 64 - 1 }
    ensures { result
        ≡ (if is_old version refused then Ok (with_old counts) else Err (write_refusal refused)) }
{
    if is_old(version, refused) {
        Ok(with_old(counts))
    } else {
        Err(write_refusal(refused))
    }
}
