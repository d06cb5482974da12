ghost use Rattle.std.specs.Prelude.{◌≡◌, ◌≤◌, Err, IfErr, IfOk, IfSome, IsOk, IsTrue, None};
ghost use Rattle.std.specs.Prelude.{OnErr, OnOk, false};
ghost use Rattle.an_base.specs.Faults.{Rises};
ghost use Rattle.an_keep.specs.Keeper.{Stays, StaysOrBegins, Turns};
ghost use Rattle.an_state.specs.Commands.{is_sendable};
ghost use Rattle.an_state.specs.Sound.{is_sound};
ghost use Rattle.an_machine.specs.Step.{step};
ghost use Rattle.an_rows.specs.Cells.{cells};
ghost use Rattle.an_rows.specs.Valid.{is_valid};
ghost use Rattle.an_shelf.specs.Opening.{IsDamagedBy, RenewsOrBegins, StandFor, WasDamagedBy};
ghost use Rattle.an_shelf.specs.Opening.{WasOpened, renewed};
ghost use Rattle.an_shelf.specs.Store.{Rests, settled};
ghost use Rattle.an_shelf.specs.Writing.{IsRefused, Leaves, RunsOut, Writes};

use crate::error::{OpenError, WriteError};
use crate::lagging_look::LaggingLook;
use crate::opening::load;
use crate::writing::write;
use an_base::Moment;
use an_keep::Keeper;
use an_machine::{Refused, WriteReply};
use an_policy::Caller;
use an_snapshot::Snapshot;
use an_state::Command;
use std::alloc::{AllocError, Global};
use std::marker::Model;

/// A store that one caller after the other reads and writes. Its state is valid and sound, and
/// where its keeper tells its cells, they are those of the state: they can always be opened again.
/// Requests are answered from a look at it, which lacks the last entry where memory ran out behind
/// its commit, until it is settled.
#[derive(Drop)]
pub struct Desk<K: Keeper> {
    keeper: K,
    front: LaggingLook,
}

impl<K: Keeper> Model for Desk<K> {
    ghost use Rattle.std.specs.Coded.{codes};
    ghost use Rattle.an_base.specs.TreeCode.{tree_code};
    ghost use Rattle.std.specs.Prelude.{◌≡◌};
    ghost use Rattle.an_shelf.specs.Front.{behind, desk_of};
    ghost use Rattle.an_shelf.specs.Store.{Stands, Store};

    ghost Value = { Store };

    ghost coded = { Prim.hlevel (codes, tree_code) };

    ghost view = { λ d. desk_of d.front (K.told d.keeper) (K.faults d.keeper) };

    ghost invariant = { λ d. Stands (K.told d.keeper) (behind d.front) };
}

/// Why a keeper wasn't opened, and the keeper, no cell of which was changed.
#[derive(Drop)]
pub struct NotOpened<K: Keeper> {
    pub why: OpenError,
    pub keeper: K,
}

impl<K: Keeper> Desk<K> {
    /// Opens a keeper: the state is the one that its cells stand for. Cells of the first format are
    /// turned into today's by one commit, after which a program of the version before finds them
    /// damaged; others stay. Where it is refused, the keeper is given back, and no cell of it was
    /// changed.
    pub fn open(alloc: Global, mut keeper: K) -> Result<Desk<K>, NotOpened<K>>
        ensures state { IfOk result (λ desk. StandFor desk.told desk.state) }
        ensures renewed { IfOk result
            (λ desk. RenewsOrBegins desk.state (K.told keeper) desk.told) }
        ensures cells { IfOk result (λ desk. IfSome desk.told (λ found. found
            ≡ cells desk.state)) }
        ensures opened { IfOk result
            (λ desk. WasOpened (K.told keeper) desk.told desk.state) }
        ensures never { IfOk result
            (λ desk. K.may_begin ≡ false → Turns (renewed desk.state) (K.told keeper) desk.told) }

        // Where it is refused.
        ensures refused { IfErr result (λ its. IsDamagedBy (K.told its.keeper) its.why) }
        ensures kept { IfErr result
            (λ its. StaysOrBegins (K.told keeper) (K.told its.keeper)) }
        ensures damaged { IfErr result
            (λ its. WasDamagedBy (K.told keeper) (K.told its.keeper) its.why) }
        ensures never_refused { IfErr result
            (λ its. K.may_begin ≡ false → Stays (K.told keeper) (K.told its.keeper)) }
        ensures sure { IfErr result (λ its. IsTrue K.is_sure → ¬ (its.why ≡ OpenError.Keeper)) }

        // Whether the cells are told or not.
        ensures valid { IfOk result (λ desk. IsTrue (is_valid desk.state)) }
        ensures sound { IfOk result (λ desk. IsTrue (is_sound desk.state)) }

        // The look shows the state.
        ensures shown { IfOk result (λ desk. desk.shown ≡ desk.state) }
        ensures nothing_waits { IfOk result (λ desk. desk.waiting ≡ None) }
    {
        match load(alloc, &mut keeper) {
            Ok(snapshot) => {
                let front = LaggingLook::new(snapshot);
                Ok(Desk { keeper, front })
            }
            Err(why) => Err(NotOpened { why, keeper }),
        }
    }

    /// Does a write, whose number is from 1 to 999,999,999 and whose group is a group: it is
    /// decided, kept, and then shown. Memory may run out after the commit too: then the write is
    /// done, and its entry waits to be shown.
    pub fn write(
        &mut self,
        alloc: Global,
        moment: Moment,
        caller: &Caller,
        command: Command,
    ) -> Result<WriteReply, WriteError>
        requires sendable { IsTrue (is_sendable command) }
        ensures written { IfOk result (λ reply. Writes
            (step self.old.state moment caller.now command) self.old.state reply self.new.state) }
        ensures refused { IfErr result
            (IsRefused (step self.old.state moment caller.now command)) }
        ensures no_memory { ¬ (result ≡ Err (WriteError.Refused Refused.Memory)) }

        // The cells follow the state, and a write that isn't done changes neither.
        ensures told { Turns (λ found. cells self.new.state) self.old.told self.new.told }
        ensures leaves { IfErr result
            (λ error. ¬ (error ≡ WriteError.Memory) → Leaves self.old self.new) }
        ensures memory { result ≡ Err WriteError.Memory
            → RunsOut (step self.old.state moment caller.now command) self.old self.new }

        // So does the look, but where memory runs out. An entry that waited is shown first.
        ensures shown { ¬ (result ≡ Err WriteError.Memory) → self.new.shown ≡ self.new.state }
        ensures nothing_waits { ¬ (result ≡ Err WriteError.Memory) → self.new.waiting ≡ None }

        // Without an entry the keeper isn't called.
        ensures repeated { IfOk result (λ reply. IsTrue reply.repeat → Rests self.old self.new) }
        ensures passed { (refusal : Refused) → result ≡ Err (WriteError.Refused refusal)
            → Rests self.old self.new }
        ensures counted { result ≡ Err WriteError.Keeper → Rises self.old.faults self.new.faults }
        ensures faults_kept { self.old.faults ≤ self.new.faults }
        ensures sure { IsTrue K.is_sure → ¬ (result ≡ Err WriteError.Keeper) }
    {
        write(
            alloc,
            &mut self.keeper,
            &mut self.front,
            moment,
            caller,
            &command,
        )
    }

    /// Shows the entry that waits, if one does; else it takes no memory. Where memory runs out
    /// nothing changes.
    pub fn settle(&mut self) -> Result<(), AllocError>
        ensures settled { OnOk result (self.new ≡ settled self.old) }
        ensures same { OnErr result (self.new ≡ self.old) }
        ensures nothing { self.old.waiting ≡ None → IsOk result }
    {
        self.front.settle()
    }

    /// What is shown: the state, where nothing waits. It takes no memory.
    pub fn look(&self) -> &Snapshot
        ensures shown { result.now.state ≡ self.now.shown }
        ensures state { self.now.waiting ≡ None → result.now.state ≡ self.now.state }
    {
        self.front.look()
    }

    /// What holds of each desk, also where an entry waits. It takes no memory.
    pub fn stands(&self)
        ensures cells { IfSome self.now.told (λ found. found ≡ cells self.now.state) }
        ensures valid { IsTrue (is_valid self.now.state) }
        ensures sound { IsTrue (is_sound self.now.state) }
    {
        let _ = &self.front;
    }

    /// Gives the keeper back, whose cells are those of the state, and stand for it. It takes no
    /// memory.
    pub fn into_keeper(self) -> K
        ensures told { K.told result ≡ self.told }
        ensures faults { K.faults result ≡ self.faults }
        ensures cells { IfSome self.told (λ found. found ≡ cells self.state) }
        ensures stand { StandFor self.told self.state }
    {
        let Desk { keeper, front } = self;
        drop(front);
        keeper
    }
}
