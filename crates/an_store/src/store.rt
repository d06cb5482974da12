//! A store, which threads share.
ghost use Rattle.std.specs.Prelude.{◌≡◌, Err, IfErr, IfOk, IsTrue};
ghost use mathlib.Core.List.{IsPrefix};
ghost use Rattle.an_state.specs.Commands.{is_sendable};
ghost use Rattle.an_store.specs.Opening.{Closes};
ghost use Rattle.an_store.specs.Writing.{Missed, Wrote};

use crate::under_lock::UnderLock;
use an_base::Moment;
use an_keep::Keeper;
use an_machine::{Refused, WriteReply};
use an_policy::Caller;
use an_published::{Naming, Seat};
use an_shelf::WriteError;
use an_state::Command;
use std::alloc::Global;
use std::sync::{Mutex, MutexGuard, Wait};

/// A store of the name J. Its seats read without waiting for anybody; who writes waits for the
/// others who do. It isn't `Drop`: end it by `close`.
pub struct Store<K: Keeper, J: Naming> {
    side: Mutex<UnderLock<K, J>>,
}

impl<K: Keeper, J: Naming> Store<K, J> {
    pub(crate) fn over(side: UnderLock<K, J>) -> Store<K, J> {
        Store {
            side: Mutex::new(side),
        }
    }

    /// Does a write, whose number is from 1 to 999,999,999 and whose group is a group, for a seat
    /// of this store. It is decided at the list that is found under the lock. On Ok the seat has
    /// seen this list and what the write adds to it, which is its own. Where it is refused, or the
    /// keeper fails, the seat has seen this list; where memory runs out its list may have grown.
    pub fn write<R: Wait>(
        &self,
        rt: &R,
        alloc: Global,
        seat: &mut Seat,
        moment: Moment,
        caller: &Caller,
        command: Command,
    ) -> Result<WriteReply, WriteError>
        requires seat { seat.old.book ≡ J.book }
        requires sendable { IsTrue (is_sendable command) }
        ensures book { seat.new.book ≡ J.book }
        ensures wrote { IfOk result
            (λ reply. Wrote moment caller.now command seat.old reply seat.new) }
        ensures missed { IfErr result
            (λ error. Missed moment caller.now command seat.old error seat.new) }
        ensures no_memory { ¬ (result ≡ Err (WriteError.Refused Refused.Memory)) }
        ensures sure { IsTrue K.is_sure → ¬ (result ≡ Err WriteError.Keeper) }
    {
        let mut guard = self.side.lock(rt);
        let answer = guard.write(rt, alloc, seat, moment, caller, command);
        MutexGuard::unlock(guard);
        answer
    }

    /// Two seats of this store see one list, which is no shorter than what each of them saw before.
    /// What is their own stays.
    pub fn meet<R: Wait>(&self, rt: &R, one: &mut Seat, other: &mut Seat)
        requires one { one.old.book ≡ J.book }
        requires other { other.old.book ≡ J.book }
        ensures same { one.new.seen ≡ other.new.seen }
        ensures one { one.new ≡ record one.old { seen = one.new.seen } }
        ensures other { other.new ≡ record other.old { seen = other.new.seen } }
        ensures one_later { IsPrefix one.old.seen one.new.seen }
        ensures other_later { IsPrefix other.old.seen other.new.seen }
    {
        let mut guard = self.side.lock(rt);
        let side = &mut *guard;
        side.align(rt, one);
        side.align(rt, other);
        MutexGuard::unlock(guard);
    }

    /// Ends the store, and gives the keeper. Where it tells its cells, they are those of the state
    /// of a legal list of writes that goes on from the one that the seat saw.
    pub fn close<R: Wait>(self, rt: &R, seat: &mut Seat) -> K
        requires seat { seat.old.book ≡ J.book }
        ensures seat { seat.new ≡ record seat.old { seen = seat.new.seen } }
        ensures later { IsPrefix seat.old.seen seat.new.seen }
        ensures closes { Closes seat.old.seen (K.told result) }
    {
        let Store { side } = self;
        let mut side = side.into_inner();
        side.align(rt, seat);
        side.end(rt)
    }
}
