//! What lies under the lock of a store.
ghost use Rattle.std.specs.Prelude.{◌≡◌, ◌≤◌, ◌++◌, Err, IfErr, IfOk, IsTrue, None, Ok};
ghost use Rattle.std.specs.Prelude.{OnErr, OnOk, Some, drop, option_to_list};
ghost use mathlib.Core.List.{IsPrefix};
ghost use Rattle.an_base.specs.Faults.{Rises};
ghost use Rattle.an_machine.specs.Step.{step};
ghost use Rattle.an_machine.specs.declared.command.Decided.{Decided};
ghost use Rattle.an_state.specs.Commands.{is_sendable, is_write};
ghost use Rattle.an_published.specs.Lists.{Stands};
ghost use Rattle.an_store.specs.UnderLock.{Sided, stock_of};
ghost use Rattle.an_laws.specs.Events.{added_by, wrote};
ghost use Rattle.an_store.specs.Stock.{Fails, Rests, Stocked, Took};
ghost use Rattle.an_store.specs.Writing.{Missed, Wrote};

use an_base::Moment;
use an_keep::Keeper;
use an_machine::{Decided, Refused, WriteReply};
use an_policy::Caller;
use an_published::{
    Addition, Head, KeptEvent, Naming, Seat, StoreWriter, align, earn, extend, publish,
};
use an_shelf::{WriteError, decide, keep};
use an_state::{Book, Command, Entry, typed_writes};
use std::alloc::{AllocError, Global};
use std::marker::{Model, PhantomData};
use std::sync::Wait;

/// What a store of the name J holds under its lock. Whenever that is free, what was accepted is
/// legal, and the cells, where the keeper tells them, are those of the state that it leads to. All
/// of it is published but at most one write, which waits. So once that is published too, writes are
/// decided over what readers are shown. It isn't `Drop`.
pub struct UnderLock<K: Keeper, J: Naming> {
    keeper: K,
    head: Head,
    writer: StoreWriter,
    waiting: Option<Addition>,
    of: PhantomData<J>,
}

impl<K: Keeper, J: Naming> Model for UnderLock<K, J> {
    ghost use Rattle.std.specs.Prelude.{◌++◌, drop, option_to_list};
    ghost use Rattle.std.specs.Coded.{codes};
    ghost use Rattle.an_base.specs.TreeCode.{tree_code};
    ghost use Rattle.an_store.specs.UnderLock.{Sided, stock_of};
    ghost use Rattle.an_store.specs.Stock.{Stock};

    ghost Value = { Stock };

    ghost coded = { Prim.hlevel (codes, tree_code) };

    ghost view = { λ s. stock_of s.writer.desk.shown.value
        (drop s.writer.behind s.writer.log.items ++ option_to_list s.waiting)
        (K.told s.keeper) (K.faults s.keeper) };

    ghost invariant = { λ s. Sided (stock_of s.writer.desk.shown.value
        (drop s.writer.behind s.writer.log.items ++ option_to_list s.waiting)
        (K.told s.keeper) (K.faults s.keeper))
        J.book s.head s.writer.desk.shown.value
        (drop s.writer.behind s.writer.log.items ++ option_to_list s.waiting) };
}

impl<K: Keeper, J: Naming> UnderLock<K, J> {
    /// All is published.
    pub(crate) fn new(keeper: K, head: Head, writer: StoreWriter) -> UnderLock<K, J>
        requires sided { Sided (stock_of writer.desk.shown.value
            (drop writer.behind writer.log.items) (K.told keeper) (K.faults keeper))
            J.book head writer.desk.shown.value (drop writer.behind writer.log.items) }
    {
        UnderLock {
            keeper,
            head,
            writer,
            waiting: None,
            of: PhantomData,
        }
    }

    /// Ends the writer, and gives the keeper.
    pub(crate) fn end<R: Wait>(self, rt: &R) -> K
        ensures told { K.told result ≡ self.told }
        ensures stocked { Stocked self }
    {
        let UnderLock {
            keeper,
            head: _,
            writer,
            waiting,
            of: _,
        } = self;
        drop(waiting);
        drop(writer.take(rt));
        keeper
    }

    /// Does a write: a write that waits is published first; then this one is decided, kept and
    /// published. Memory may run out after the commit too: then it waits to be published.
    pub fn take<R: Wait>(
        &mut self,
        rt: &R,
        alloc: Global,
        moment: Moment,
        caller: &Caller,
        command: Command,
    ) -> Result<WriteReply, WriteError>
        requires sendable { IsTrue (is_sendable command) }
        ensures stocked { Stocked self.new }
        ensures took { IfOk result
            (λ reply. Took moment caller.now command self.old reply self.new) }
        ensures fails { IfErr result
            (λ error. Fails moment caller.now command self.old error self.new) }
        ensures no_memory { ¬ (result ≡ Err (WriteError.Refused Refused.Memory)) }
        ensures counted { result ≡ Err WriteError.Keeper → Rises self.old.faults self.new.faults }
        ensures faults_kept { self.old.faults ≤ self.new.faults }
        ensures sure { IsTrue K.is_sure → ¬ (result ≡ Err WriteError.Keeper) }
    {
        self.settle(rt)?;
        self.take_settled(rt, alloc, moment, caller, &command)
    }

    /// The seat sees just what is published. Nothing else changes.
    pub fn align<R: Wait>(&mut self, rt: &R, seat: &mut Seat)
        requires seat { seat.old.book ≡ J.book }
        ensures seat { seat.new ≡ record seat.old { seen = self.old.published } }
        ensures later { IsPrefix seat.old.seen self.old.published }
        ensures own { Stands seat.old.own self.old.published }
        ensures same { self.new ≡ self.old }
        ensures stocked { Stocked self.new }
    {
        align(rt, &self.writer.published().mark, seat);
    }

    /// Does a write for a seat, at all that was accepted before.
    pub(crate) fn write<R: Wait>(
        &mut self,
        rt: &R,
        alloc: Global,
        seat: &mut Seat,
        moment: Moment,
        caller: &Caller,
        command: Command,
    ) -> Result<WriteReply, WriteError>
        requires seat { seat.old.book ≡ J.book }
        requires sendable { IsTrue (is_sendable command) }
        ensures book { seat.new.book ≡ J.book }
        ensures wrote { IfOk result
            (λ reply. Wrote moment caller.now command seat.old reply seat.new) }
        ensures missed { IfErr result
            (λ error. Missed moment caller.now command seat.old error seat.new) }
        ensures no_memory { ¬ (result ≡ Err (WriteError.Refused Refused.Memory)) }
        ensures sure { IsTrue K.is_sure → ¬ (result ≡ Err WriteError.Keeper) }
    {
        self.align(rt, seat);
        match self.take(rt, alloc, moment, caller, command) {
            Ok(reply) => {
                self.align(rt, seat);
                if reply.repeat {
                    return Ok(reply);
                }
                earn(rt, seat);
                Ok(reply)
            }
            Err(WriteError::Refused(refusal)) => {
                self.align(rt, seat);
                Err(WriteError::Refused(refusal))
            }
            Err(WriteError::Keeper) => {
                self.align(rt, seat);
                Err(WriteError::Keeper)
            }
            Err(WriteError::Memory) => Err(WriteError::Memory),
        }
    }

    /// The book of the state, where all is published.
    fn book(&self) -> &Book
        requires settled { self.now.published ≡ self.now.accepted }
        ensures state { result.now.state ≡ self.now.state }
        ensures stocked { Stocked self.now }
    {
        self.writer.published().snapshot.book()
    }

    /// Does a write where all is published.
    fn take_settled<R: Wait>(
        &mut self,
        rt: &R,
        alloc: Global,
        moment: Moment,
        caller: &Caller,
        command: &Command,
    ) -> Result<WriteReply, WriteError>
        requires sendable { IsTrue (is_sendable command.now) }
        requires settled { self.old.published ≡ self.old.accepted }
        ensures stocked { Stocked self.new }
        ensures took { IfOk result
            (λ reply. Took moment caller.now command.now self.old reply self.new) }
        ensures fails { IfErr result
            (λ error. Fails moment caller.now command.now self.old error self.new) }
        ensures no_memory { ¬ (result ≡ Err (WriteError.Refused Refused.Memory)) }
        ensures counted { result ≡ Err WriteError.Keeper → Rises self.old.faults self.new.faults }
        ensures faults_kept { self.old.faults ≤ self.new.faults }
        ensures sure { IsTrue K.is_sure → ¬ (result ≡ Err WriteError.Keeper) }
    {
        typed_writes(moment, command);
        let Decided { entry, reply } = decide(alloc, self.book(), moment, caller, command)?;
        match entry {
            Some(entry) => {
                self.carry_out(rt, alloc, moment, caller, command, entry)?;
                Ok(reply)
            }
            None => Ok(reply),
        }
    }

    /// Keeps and publishes a write that was decided, where all is published.
    fn carry_out<R: Wait>(
        &mut self,
        rt: &R,
        alloc: Global,
        moment: Moment,
        caller: &Caller,
        command: &Command,
        entry: Entry,
    ) -> Result<(), WriteError>
        requires decided { (write : Decided)
            × (step self.old.state moment caller.now command.now ≡ Ok write)
            × (write.entry ≡ Some entry) }
        requires sent { IsTrue (is_write moment command.now) }
        requires settled { self.old.published ≡ self.old.accepted }
        ensures stocked { Stocked self.new }
        ensures published { OnOk result (self.new.published ≡ self.old.accepted
            ++ wrote self.new.told (added_by moment caller.now command.now (Some entry))) }
        ensures accepted { OnOk result (self.new.accepted ≡ self.new.published) }
        ensures fails { IfErr result
            (λ error. Fails moment caller.now command.now self.old error self.new) }
        ensures counted { result ≡ Err WriteError.Keeper → Rises self.old.faults self.new.faults }
        ensures faults_kept { self.old.faults ≤ self.new.faults }
        ensures sure { IsTrue K.is_sure → ¬ (result ≡ Err WriteError.Keeper) }
    {
        let Some(next) = self.writer.published().mark.next() else {
            drop(entry);
            return Err(WriteError::Memory);
        };
        let book = self.writer.published().snapshot.book();
        keep(alloc, &mut self.keeper, book, &entry)?;
        let kept = KeptEvent::new(moment, caller, command, &entry, &self.keeper);
        let mark = extend(rt, &self.head, &self.writer.published().mark, next, &kept);
        wait(&mut self.waiting, Addition { entry, mark });
        self.settle(rt)?;
        Ok(())
    }

    /// Publishes a write that waits, if one does.
    fn settle<R: Wait>(&mut self, rt: &R) -> Result<(), AllocError>
        ensures stocked { Stocked self.new }
        ensures rests { Rests self.old self.new }
        ensures accepted { self.new.accepted ≡ self.old.accepted }
        ensures published { OnOk result (self.new.published ≡ self.old.accepted) }
        ensures waits { OnErr result (self.new.published ≡ self.old.published) }
    {
        append(&mut self.writer, &mut self.waiting)?;
        if !self.writer.has_pending_operations() {
            return Ok(());
        }
        publish(rt, &mut self.writer)?;
        Ok(())
    }
}

/// Puts what waits behind what is pending.
fn append(writer: &mut StoreWriter, waiting: &mut Option<Addition>) -> Result<(), AllocError>
    ensures desk { writer.new.desk ≡ writer.old.desk }
    ensures appended { OnOk result (drop writer.new.behind writer.new.log.items
        ≡ drop writer.old.behind writer.old.log.items ++ option_to_list waiting.old) }
    ensures none_waits { OnOk result (waiting.new ≡ None) }
    ensures same { OnErr result (drop writer.new.behind writer.new.log.items
        ≡ drop writer.old.behind writer.old.log.items) }
    ensures waits { OnErr result (waiting.new ≡ waiting.old) }
{
    match waiting.take() {
        None => Ok(()),
        Some(addition) => match writer.append(addition) {
            Ok(()) => Ok(()),
            Err(addition) => {
                wait(waiting, addition);
                Err(AllocError)
            }
        },
    }
}

/// The addition waits.
fn wait(waiting: &mut Option<Addition>, addition: Addition)
    ensures { waiting.new ≡ Some addition }
{
    drop(waiting.replace(addition));
}
