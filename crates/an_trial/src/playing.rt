//! The writes of the trial, at a store in memory.
ghost use Rattle.std.specs.Prelude.{◌≡◌, [], IfOk, IsSome, IsTrue, None, OnOk, fold};
ghost use Rattle.an_state.specs.Commands.{is_sendable};
ghost use Rattle.an_state.specs.State.{empty};
ghost use Rattle.an_trial.specs.Trial.{state_behind, state_behind_all, trial_state};
ghost use Rattle.an_trial.specs.Writes.{note_writes};

use crate::draws::Generator;
use crate::writes::{Write, manifest_write, note_write, reader_write};
use an_keep::SureKeeper;
use an_shelf::{Desk, OpenError, WriteError};
use std::alloc::{AllocError, Global};

/// A store with all that is written: the reader, the manifest, and so many annotations.
#[tactic(auto, unfolding(crate::specs::Trial::trial_state))]
pub(crate) fn play(alloc: Global, count: u32, seed: u32) -> Result<Desk<SureKeeper>, AllocError>
    ensures state { IfOk result (λ desk. IsSome desk.told
        → desk.state ≡ trial_state count seed) }
    ensures nothing_waits { IfOk result (λ desk. desk.waiting ≡ None) }
{
    let mut desk = open(alloc)?;
    match put_all(alloc, &mut desk, count, seed) {
        Ok(()) => Ok(desk),
        Err(error) => {
            drop(desk);
            Err(error)
        }
    }
}

/// Puts the reader, the manifest, and so many annotations.
#[tactic(auto, using(crate::proofs::WriteLemmas::trial_writes), unfolding(crate::specs::Trial::state_behind_all))]
fn put_all(
    alloc: Global,
    desk: &mut Desk<SureKeeper>,
    count: u32,
    seed: u32,
) -> Result<(), AllocError>
    ensures state { OnOk result (desk.new.state ≡ state_behind_all desk.old.state count seed) }
    ensures nothing_waits { OnOk result (desk.new.waiting ≡ None) }
    ensures told { IsSome desk.new.told → IsSome desk.old.told }
{
    put(alloc, desk, reader_write(alloc)?)?;
    put(alloc, desk, manifest_write(alloc)?)?;
    put_notes(alloc, desk, count, seed)
}

/// A store without a row.
fn open(alloc: Global) -> Result<Desk<SureKeeper>, AllocError>
    ensures empty { IfOk result (λ desk. IsSome desk.told → desk.state ≡ empty) }
    ensures nothing_waits { IfOk result (λ desk. desk.waiting ≡ None) }
{
    match Desk::open(alloc, SureKeeper::new(Vec::new(alloc))) {
        Ok(desk) => Ok(desk),
        Err(unopened) => match unopened.why {
            OpenError::Memory => Err(AllocError),
            OpenError::Keeper => unreachable!(),
            OpenError::Damaged { .. } => unreachable!(),
        },
    }
}

/// Puts so many annotations.
#[tactic(auto, using(crate::proofs::WriteLemmas::trial_writes))]
fn put_notes(
    alloc: Global,
    desk: &mut Desk<SureKeeper>,
    count: u32,
    seed: u32,
) -> Result<(), AllocError>
    requires nothing_waits { desk.old.waiting ≡ None }
    ensures state { OnOk result (desk.new.state
        ≡ fold state_behind desk.old.state (note_writes seed count)) }
    ensures nothing_waits { OnOk result (desk.new.waiting ≡ None) }
    ensures told { IsSome desk.new.told → IsSome desk.old.told }
{
    let mut generator = Generator { number: seed };
    for notes in 0..count {
        let draws = generator.draws();
        let write = note_write(alloc, notes + 1, draws)?;
        put(alloc, desk, write)?;
    }
    Ok(())
}

/// Does a write. One that the machine refuses leaves the store as it was.
fn put(alloc: Global, desk: &mut Desk<SureKeeper>, write: Write) -> Result<(), AllocError>
    requires { IsTrue (is_sendable write.command) }
    ensures state { OnOk result (desk.new.state ≡ state_behind desk.old.state write) }
    ensures nothing_waits { OnOk result (desk.new.waiting ≡ None) }
    ensures told { IsSome desk.new.told → IsSome desk.old.told }
{
    let Write {
        moment,
        caller,
        command,
    } = write;
    match desk.write(alloc, moment, &caller, command) {
        Ok(_) => Ok(()),
        Err(WriteError::Refused(_)) => Ok(()),
        Err(WriteError::Memory) => Err(AllocError),
        Err(WriteError::Keeper) => unreachable!(),
    }
}
