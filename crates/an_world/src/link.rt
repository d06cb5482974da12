ghost use Rattle.std.specs.Prelude.{◌≡◌, ◌<◌, ◌≤◌, length, take, IfOk, OnErr};
ghost use Rattle.an_base.specs.Faults.{Rises};
ghost use Rattle.an_world.specs.Link.{Reads, Writes, IsZeroAtEnd};

/// A read or a write that a link failed. The link has counted it.
#[derive(Clone, Copy, Debug, PartialEq, Eq)]
pub struct LinkFault;

/// A way to the outside, from which bytes are read and to which bytes are written.
///
/// A link tells its bytes for as long as it is there, or never. A call fails only where its count
/// of faults rises, a failed call moves no bytes, and no count ever falls. A count stands still at
/// `u64::MAX`.
pub trait Link: Drop {
    ghost use Rattle.std.specs.Prelude.{Bool, ℕ, Option};
    ghost use Rattle.an_world.specs.Link.{Traffic};

    // The bytes that went over the link, where it tells them.
    ghost traffic: { Self → Option Traffic };

    ghost read_faults: { Self → ℕ };

    ghost write_faults: { Self → ℕ };

    // Whether the counts of this kind of link are 0 for good.
    ghost is_sure: { Bool };

    /// Gives bytes into the front of `into`, and answers how many: 0 at the end of the input alone.
    /// What stands in `into` behind them is open.
    fn read(&mut self, into: &mut [u8]) -> Result<usize, LinkFault>
        requires { 0 < length into.old }
        ensures within { IfOk result (λ count. count ≤ length into.old) }
        ensures moves { IfOk result
            (λ count. Reads (take count into.new) (traffic self.old) (traffic self.new)) }
        ensures end { IfOk result (λ count. IsZeroAtEnd count (traffic self.old)) }

        // A failed read moves no bytes.
        ensures fault_still { OnErr result (traffic self.new ≡ traffic self.old) }
        ensures fault_counted { OnErr result (Rises (read_faults self.old) (read_faults self.new)) }
        ensures read_faults_kept { read_faults self.old ≤ read_faults self.new }
        ensures write_faults_kept { write_faults self.old ≤ write_faults self.new };

    /// Takes bytes from the front of `from`, at least one, and answers how many.
    fn write(&mut self, from: &[u8]) -> Result<usize, LinkFault>
        requires { 0 < length from.now }
        ensures some { IfOk result (λ count. 0 < count) }
        ensures within { IfOk result (λ count. count ≤ length from.now) }
        ensures adds { IfOk result
            (λ count. Writes (take count from.now) (traffic self.old) (traffic self.new)) }

        // A failed write moves no bytes.
        ensures fault_still { OnErr result (traffic self.new ≡ traffic self.old) }
        ensures fault_counted { OnErr result
            (Rises (write_faults self.old) (write_faults self.new)) }
        ensures read_faults_kept { read_faults self.old ≤ read_faults self.new }
        ensures write_faults_kept { write_faults self.old ≤ write_faults self.new };

    /// Ends the link. Nothing is read or written by it.
    fn close(&mut self)
        ensures still { traffic self.new ≡ traffic self.old }
        ensures read_faults_same { read_faults self.new ≡ read_faults self.old }
        ensures write_faults_same { write_faults self.new ≡ write_faults self.old };

    ghost use Rattle.std.specs.Prelude.{IsTrue};

    // A sure link never failed a call, and so never fails one.
    ghost sure_reads: { IsTrue is_sure → (link : Self) → read_faults link ≡ 0 };

    ghost sure_writes: { IsTrue is_sure → (link : Self) → write_faults link ≡ 0 };
}
