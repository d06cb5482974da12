ghost use Rattle.std.specs.Prelude.{◌≡◌, ◌<◌, ◌≤◌, ◌↔◌, [], length, take, IfOk, OnErr, is_err};
ghost use Rattle.an_base.specs.Faults.{Rises};
ghost use Rattle.an_world.specs.Link.{MovesRead, AddsWritten};
ghost use Rattle.an_world.specs.Input.{count_for};
ghost use Rattle.an_world.specs.Calls.{is_next_failing};
ghost use Rattle.an_world.specs.Memory.{memory_of, traffic_of, after_read, is_write_failing, taken};
ghost use Rattle.an_world.specs.Memory.{after_write};

use crate::calls::Calls;
use crate::input::Input;
use crate::link::{Link, LinkFault};
use an_base::Bytes;
use std::alloc::{AllocError, Global};
use std::marker::Model;

/// A link whose input stands in memory, and which keeps what is written to it there. It fails the
/// calls that it is told to fail, and a write where no room is left.
#[derive(Debug, Drop)]
pub struct MemLink {
    input: Input,
    written: Vec<u8>,
    room: usize,
    reads: Calls,
    writes: Calls,
}

impl Model for MemLink {
    ghost use Rattle.std.specs.Prelude.{◌+◌, ◌≤◌, vec_len, vec_capacity};
    ghost use Rattle.an_world.specs.Memory.{Memory};

    ghost Value = { Memory };

    ghost view = { λ l. record {
      input = l.input;
      written = l.written.items;
      room = l.room;
      reads = l.reads;
      writes = l.writes;
    } };

    ghost invariant = { λ l. vec_len l.written + l.room ≤ vec_capacity l.written };
}

impl MemLink {
    /// A link with this input, of which each read gives no more than the next piece of `cut`, or
    /// the rest behind the last piece. A piece of 0 bytes is no piece.
    ///
    /// The calls of `read` with the numbers of `fail_reads` fail, and those of `write` with the
    /// numbers of `fail_writes`, each counted from 1. `room` bytes can be written to it, and the
    /// memory for them is taken here.
    pub fn new(
        alloc: Global,
        input: Bytes,
        cut: Vec<usize>,
        fail_reads: Vec<u64>,
        fail_writes: Vec<u64>,
        room: usize,
    ) -> Result<MemLink, AllocError>
        ensures start { IfOk result
            (λ link. link ≡ memory_of input cut.items fail_reads.items fail_writes.items room) }
    {
        Ok(MemLink {
            input: Input::new(input, cut),
            written: Vec::with_capacity(alloc, room)?,
            room,
            reads: Calls::new(fail_reads),
            writes: Calls::new(fail_writes),
        })
    }

    /// The bytes that were written so far.
    pub fn written(&self) -> &[u8]
        ensures { result.now ≡ self.now.written }
    {
        self.written.as_slice()
    }

    /// How many reads failed. The count stands still at `u64::MAX`.
    pub fn read_faults(&self) -> u64
        ensures { result ≡ self.now.reads.faults }
    {
        self.reads.faults()
    }

    /// How many writes failed. The count stands still at `u64::MAX`.
    pub fn write_faults(&self) -> u64
        ensures { result ≡ self.now.writes.faults }
    {
        self.writes.faults()
    }
}

impl Link for MemLink {
    ghost use Rattle.std.specs.Prelude.{Some, false};

    ghost traffic = { λ link. Some (traffic_of link) };

    ghost read_faults = { λ link. link.reads.faults };

    ghost write_faults = { λ link. link.writes.faults };

    ghost is_sure = { false };

    ghost use Rattle.std.proofs.lemmas.Bool.{false≢true};

    // It claims no such thing.
    ghost sure_reads = { λ sure link. absurd (false≢true sure) };

    ghost sure_writes = { λ sure link. absurd (false≢true sure) };

    /// Fails exactly where the call is listed, and otherwise gives as much of the next piece as
    /// there is room for.
    fn read(&mut self, into: &mut [u8]) -> Result<usize, LinkFault>
        requires { 0 < length into.old }
        ensures fails { is_err result ≡ is_next_failing self.old.reads }
        ensures gives { IfOk result (λ count. count ≡ count_for (length into.old) self.old.input) }
        ensures after { self.new ≡ after_read (length into.old) self.old }

        // What each link ensures.
        ensures within { IfOk result (λ count. count ≤ length into.old) }
        ensures moves { IfOk result
            (λ count. MovesRead (take count into.new) (traffic_of self.old) (traffic_of self.new)) }
        ensures end { IfOk result (λ count. (count ≡ 0) ↔ (self.old.input.left ≡ [])) }
        ensures fault_still { OnErr result (traffic_of self.new ≡ traffic_of self.old) }
        ensures fault_counted { OnErr result (Rises self.old.reads.faults self.new.reads.faults) }
        ensures read_faults_kept { self.old.reads.faults ≤ self.new.reads.faults }
        ensures write_faults_kept { self.old.writes.faults ≤ self.new.writes.faults }
    {
        if self.reads.is_next_failing() {
            self.reads.fail();
            return Err(LinkFault);
        }
        self.reads.call();
        Ok(self.input.give(into))
    }

    /// Fails exactly where the call is listed or no room is left, and otherwise takes as much as
    /// there is room for.
    fn write(&mut self, from: &[u8]) -> Result<usize, LinkFault>
        requires { 0 < length from.now }
        ensures fails { is_err result ≡ is_write_failing self.old }
        ensures takes { IfOk result (λ count. count ≡ taken (length from.now) self.old) }
        ensures after { self.new ≡ after_write from.now self.old }

        // What each link ensures.
        ensures some { IfOk result (λ count. 0 < count) }
        ensures within { IfOk result (λ count. count ≤ length from.now) }
        ensures adds { IfOk result
            (λ count. AddsWritten (take count from.now)
            (traffic_of self.old) (traffic_of self.new)) }
        ensures fault_still { OnErr result (traffic_of self.new ≡ traffic_of self.old) }
        ensures fault_counted { OnErr result (Rises self.old.writes.faults self.new.writes.faults) }
        ensures read_faults_kept { self.old.reads.faults ≤ self.new.reads.faults }
        ensures write_faults_kept { self.old.writes.faults ≤ self.new.writes.faults }
    {
        if self.writes.is_next_failing() || self.room == 0 {
            self.writes.fail();
            return Err(LinkFault);
        }
        self.writes.call();
        let count = from.len().min(self.room);
        match self.written.extend_from_slice(&from[..count]) {
            Ok(()) => {}
            Err(_) => unreachable!(),
        }
        self.room -= count;
        Ok(count)
    }

    /// Leaves all as it is.
    fn close(&mut self)
        ensures same { self.new ≡ self.old }
        ensures still { traffic_of self.new ≡ traffic_of self.old }
        ensures read_faults_same { self.new.reads.faults ≡ self.old.reads.faults }
        ensures write_faults_same { self.new.writes.faults ≡ self.old.writes.faults }
    {}
}
