//! How a write is decided and kept, for whatever shows its state.
ghost use Rattle.std.specs.Prelude.{◌≡◌, ◌≤◌, Err, IfErr, IfOk, IfSome, IsTrue, Ok, OnErr, OnOk};
ghost use Rattle.an_base.specs.Faults.{Rises};
ghost use Rattle.an_keep.specs.Keeper.{Stays, Turns};
ghost use Rattle.an_machine.specs.Step.{step};
ghost use Rattle.an_rows.specs.Cells.{cells};
ghost use Rattle.an_rows.specs.Changes.{is_settled};
ghost use Rattle.an_shelf.specs.Writing.{IsRefused, refusal_error};
ghost use Rattle.an_state.specs.Commands.{is_sendable};
ghost use Rattle.an_state.specs.Entries.{after};

use crate::error::WriteError;
use an_base::Moment;
use an_keep::{KeepError, Keeper};
use an_machine::{Decided, Refused};
use an_policy::Caller;
use an_rows::cells_of;
use an_state::{Book, Command, Entry};
use std::alloc::Global;

/// Decides a write, which changes nothing. With an error the machine refused it, or memory ran out,
/// which is no refusal of the machine.
pub fn decide(
    alloc: Global,
    book: &Book,
    moment: Moment,
    caller: &Caller,
    command: &Command,
) -> Result<Decided, WriteError>
    requires sendable { IsTrue (is_sendable command.now) }
    ensures decided { IfOk result (λ write. step book.now.state moment caller.now command.now
        ≡ Ok write) }
    ensures refused { IfErr result
        (IsRefused (step book.now.state moment caller.now command.now)) }
    ensures no_memory { ¬ (result ≡ Err (WriteError.Refused Refused.Memory)) }
    ensures no_keeper { ¬ (result ≡ Err WriteError.Keeper) }
{
    match an_machine::decide(alloc, book, moment, caller, command) {
        Ok(decided) => Ok(decided),
        Err(refused) => Err(refusal_error(refused)),
    }
}

fn refusal_error(refused: Refused) -> WriteError
    ensures { result ≡ refusal_error refused }
{
    if matches!(refused, Refused::Memory) {
        WriteError::Memory
    } else {
        WriteError::Refused(refused)
    }
}

/// Keeps what an entry changes, after which the cells are those of the state with it. With an error
/// they are as they were.
pub fn keep<K: Keeper>(
    alloc: Global,
    keeper: &mut K,
    book: &Book,
    entry: &Entry,
) -> Result<(), KeepError>
    requires settled { IsTrue (is_settled book.now.state entry.now) }
    requires cells { IfSome (K.told keeper.old) (λ found. found ≡ cells book.now.state) }
    ensures told { OnOk result (Turns (λ found. cells (after book.now.state entry.now))
        (K.told keeper.old) (K.told keeper.new)) }
    ensures stays { OnErr result (Stays (K.told keeper.old) (K.told keeper.new)) }
    ensures counted { result ≡ Err KeepError.Failed
        → Rises (K.faults keeper.old) (K.faults keeper.new) }
    ensures faults_kept { K.faults keeper.old ≤ K.faults keeper.new }
{
    let changes = cells_of(alloc, entry, book)?;
    keeper.commit(changes.as_slice())
}
