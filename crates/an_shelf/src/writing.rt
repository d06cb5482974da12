//! A write, on the parts of a desk.
ghost use Rattle.std.specs.Prelude.{◌≡◌, ◌≤◌, Err, IfErr, IfOk, IfSome, IsSome, IsTrue, None};
ghost use Rattle.std.specs.Prelude.{OnOk};
ghost use Rattle.an_base.specs.Faults.{Rises};
ghost use Rattle.an_keep.specs.Keeper.{Stays, Turns};
ghost use Rattle.an_state.specs.Commands.{is_sendable, is_write};
ghost use Rattle.an_state.specs.Entries.{state_after};
ghost use Rattle.an_machine.specs.Step.{step};
ghost use Rattle.an_rows.specs.Cells.{cells};
ghost use Rattle.an_rows.specs.Changes.{is_settled};
ghost use Rattle.an_shelf.specs.Front.{CanShow, Stops, behind, desk_of};
ghost use Rattle.an_shelf.specs.Store.{Stands};
ghost use Rattle.an_shelf.specs.Writing.{IsRefused, RunsOut, Writes};

use crate::error::WriteError;
use crate::keeping::{decide, keep};
use crate::lagging_look::LaggingLook;
use an_base::Moment;
use an_keep::Keeper;
use an_machine::{Decided, Refused, WriteReply};
use an_policy::Caller;
use an_state::{Command, typed_writes};
use std::alloc::Global;

/// Does a write on a keeper and the look at the state of its cells, which first shows an entry that
/// waits.
pub(crate) fn write<K: Keeper>(
    alloc: Global,
    keeper: &mut K,
    front: &mut LaggingLook,
    moment: Moment,
    caller: &Caller,
    command: &Command,
) -> Result<WriteReply, WriteError>
    requires sendable { IsTrue (is_sendable command.now) }
    requires stands { Stands (K.told keeper.old) (behind front.old) }
    ensures stands { Stands (K.told keeper.new) (behind front.new) }
    ensures written { IfOk result (λ reply. Writes
        (step (behind front.old) moment caller.now command.now)
        (behind front.old) reply (behind front.new)) }
    ensures refused { IfErr result
        (IsRefused (step (behind front.old) moment caller.now command.now)) }
    ensures no_memory { ¬ (result ≡ Err (WriteError.Refused Refused.Memory)) }
    ensures told { Turns (λ found. cells (behind front.new))
        (K.told keeper.old) (K.told keeper.new) }
    ensures still { IfErr result
        (λ error. ¬ (error ≡ WriteError.Memory) → behind front.new ≡ behind front.old) }
    ensures stays { IfErr result
        (λ error. ¬ (error ≡ WriteError.Memory) → Stays (K.told keeper.old) (K.told keeper.new)) }
    ensures memory { result ≡ Err WriteError.Memory
        → RunsOut (step (behind front.old) moment caller.now command.now)
        (desk_of front.old (K.told keeper.old) (K.faults keeper.old))
        (desk_of front.new (K.told keeper.new) (K.faults keeper.new)) }
    ensures nothing_waits { ¬ (result ≡ Err WriteError.Memory) → front.new.waiting ≡ None }
    ensures repeated { IfOk result (λ reply. IsTrue reply.repeat → keeper.new ≡ keeper.old) }
    ensures repeats { IfOk result
        (λ reply. IsTrue reply.repeat → behind front.new ≡ behind front.old) }
    ensures passed { (refusal : Refused) → result ≡ Err (WriteError.Refused refusal)
        → keeper.new ≡ keeper.old }
    ensures counted { result ≡ Err WriteError.Keeper
        → Rises (K.faults keeper.old) (K.faults keeper.new) }
    ensures faults_kept { K.faults keeper.old ≤ K.faults keeper.new }
    ensures sure { IsTrue K.is_sure → ¬ (result ≡ Err WriteError.Keeper) }
{
    front.settle()?;
    write_settled(alloc, keeper, front, moment, caller, command)
}

/// Does a write where all is shown.
fn write_settled<K: Keeper>(
    alloc: Global,
    keeper: &mut K,
    front: &mut LaggingLook,
    moment: Moment,
    caller: &Caller,
    command: &Command,
) -> Result<WriteReply, WriteError>
    requires sendable { IsTrue (is_sendable command.now) }
    requires stands { Stands (K.told keeper.old) front.old.state }
    requires nothing_waits { front.old.waiting ≡ None }
    ensures stands { Stands (K.told keeper.new) (behind front.new) }
    ensures written { IfOk result (λ reply. Writes
        (step front.old.state moment caller.now command.now)
        front.old.state reply (behind front.new)) }
    ensures refused { IfErr result
        (IsRefused (step front.old.state moment caller.now command.now)) }
    ensures no_memory { ¬ (result ≡ Err (WriteError.Refused Refused.Memory)) }
    ensures told { Turns (λ found. cells (behind front.new))
        (K.told keeper.old) (K.told keeper.new) }
    ensures still { IfErr result
        (λ error. ¬ (error ≡ WriteError.Memory) → behind front.new ≡ front.old.state) }
    ensures stays { IfErr result
        (λ error. ¬ (error ≡ WriteError.Memory) → Stays (K.told keeper.old) (K.told keeper.new)) }
    ensures memory { result ≡ Err WriteError.Memory
        → RunsOut (step front.old.state moment caller.now command.now)
        (desk_of front.old (K.told keeper.old) (K.faults keeper.old))
        (desk_of front.new (K.told keeper.new) (K.faults keeper.new)) }
    ensures nothing_waits { ¬ (result ≡ Err WriteError.Memory) → front.new.waiting ≡ None }
    ensures repeated { IfOk result (λ reply. IsTrue reply.repeat → keeper.new ≡ keeper.old) }
    ensures repeats { IfOk result
        (λ reply. IsTrue reply.repeat → behind front.new ≡ front.old.state) }
    ensures passed { (refusal : Refused) → result ≡ Err (WriteError.Refused refusal)
        → keeper.new ≡ keeper.old }
    ensures counted { result ≡ Err WriteError.Keeper
        → Rises (K.faults keeper.old) (K.faults keeper.new) }
    ensures faults_kept { K.faults keeper.old ≤ K.faults keeper.new }
    ensures sure { IsTrue K.is_sure → ¬ (result ≡ Err WriteError.Keeper) }
{
    typed_writes(moment, command);
    let decided = decide(alloc, front.look().book(), moment, caller, command)?;
    carry_out(alloc, keeper, front, decided)
}

/// Does what was decided, where all is shown.
fn carry_out<K: Keeper>(
    alloc: Global,
    keeper: &mut K,
    front: &mut LaggingLook,
    decided: Decided,
) -> Result<WriteReply, WriteError>
    requires settled { IfSome decided.entry (λ entry. IsTrue (is_settled front.old.state entry)) }
    requires cells { IfSome (K.told keeper.old) (λ found. found ≡ cells front.old.state) }
    requires can_show { CanShow decided.entry front.old.state }
    requires nothing_waits { front.old.waiting ≡ None }
    ensures replies { IfOk result (λ reply. reply ≡ decided.reply) }
    ensures leads { OnOk result (behind front.new ≡ state_after front.old.state decided.entry) }
    ensures no_refusal { (refusal : Refused) → ¬ (result ≡ Err (WriteError.Refused refusal)) }
    ensures accepted { result ≡ Err WriteError.Keeper → IsSome decided.entry }
    ensures told { Turns (λ found. cells (behind front.new))
        (K.told keeper.old) (K.told keeper.new) }
    ensures still { result ≡ Err WriteError.Keeper → behind front.new ≡ front.old.state }
    ensures stays { result ≡ Err WriteError.Keeper
        → Stays (K.told keeper.old) (K.told keeper.new) }
    ensures nothing_waits { ¬ (result ≡ Err WriteError.Memory) → front.new.waiting ≡ None }
    ensures memory { result ≡ Err WriteError.Memory
        → Stops decided.entry front.old.state front.new (K.told keeper.old) (K.told keeper.new) }
    ensures repeated { decided.entry ≡ None → keeper.new ≡ keeper.old }
    ensures counted { result ≡ Err WriteError.Keeper
        → Rises (K.faults keeper.old) (K.faults keeper.new) }
    ensures faults_kept { K.faults keeper.old ≤ K.faults keeper.new }
{
    let Decided { entry, reply } = decided;
    match entry {
        Some(entry) => {
            keep(alloc, keeper, front.look().book(), &entry)?;
            front.show(entry)?;
            Ok(reply)
        }
        None => Ok(reply),
    }
}
