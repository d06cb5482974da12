ghost use Rattle.std.specs.Prelude.{◌≡◌, ◌<◌, ◌≤◌, IfOk, IsTrue, OnErr};
ghost use Rattle.an_base.specs.Faults.{Rises};
ghost use Rattle.an_session.specs.Session.{line};
ghost use Rattle.an_door.specs.Doors.{Accepts, bound_with, finished_one};
ghost use Rattle.an_door.specs.Ends.{Held, IsBorne, IsFresh};

use crate::sessions::SessionKind;
use an_session::Ended;
use an_world::Link;

/// A `bind` or an `accept` that a door failed. The door has counted it.
#[derive(Clone, Copy, Debug, PartialEq, Eq)]
pub struct DoorFault;

/// What a door answers to `accept`.
#[derive(Debug, Drop)]
pub enum Accepted<L> {
    Link(L),
    /// No link comes any more.
    Ended,
}

/// What a door has counted, and by what it is bound.
#[derive(Clone, Copy, Debug, PartialEq, Eq)]
pub struct Tally {
    /// How many links were accepted. The count stands still at `u64::MAX`.
    pub accepted: u64,
    /// How many links were handed in. The count stands still at `u64::MAX`.
    pub finished: u64,
    /// Whether `accept` has answered that no link comes any more.
    pub ended: bool,
    /// The port that the door is bound to, or 0.
    pub port: u16,
    /// How many links are accepted at most, or 0 where nothing bounds them.
    pub most: u32,
}

/// Where links come in, and where each of them is handed in again behind its end.
///
/// A call fails only where the door's count of faults rises. It leaves what the door has counted
/// as it was, and no count ever falls. The count of faults stands still at `u64::MAX`.
pub trait Door<K: SessionKind>: Drop {
    type Link: Link;

    ghost use Rattle.std.specs.Prelude.{Bool, ℕ};
    ghost use Rattle.an_door.specs.declared.door.Tally.{Tally};

    ghost counts: { Self → Tally };

    // Whether none of the links of a door in memory is left; another door never has none left.
    ghost has_none: { Self → Bool };

    ghost faults: { Self → ℕ };

    // Whether the count of faults of this kind of door is 0 for good.
    ghost is_sure: { Bool };

    /// Binds the door to a port, for so many links at most, or for any number where that is 0.
    fn bind(&mut self, port: u16, most: u32) -> Result<(), DoorFault>
        requires port { 0 < port }
        requires unbound { (counts self.old).port ≡ 0 }
        ensures bound { IfOk result
            (λ _. counts self.new ≡ bound_with port most (counts self.old)) }
        ensures still { OnErr result (counts self.new ≡ counts self.old) }
        ensures fault { OnErr result (Rises (faults self.old) (faults self.new)) }
        ensures faults_kept { faults self.old ≤ faults self.new };

    /// The next link, over which nothing went yet; or the end, exactly where as many links were
    /// accepted as the door is bound to, or none is left.
    fn accept(&mut self) -> Result<Accepted<Self::Link>, DoorFault>
        ensures accepts { IfOk result (λ accepted. Accepts
            (λ link. IsFresh (line (Self.Link.traffic link)
            (Self.Link.read_faults link) (Self.Link.write_faults link)))
            (has_none self.old) accepted (counts self.old) (counts self.new)) }
        ensures still { OnErr result (counts self.new ≡ counts self.old) }
        ensures fault { OnErr result (Rises (faults self.old) (faults self.new)) }
        ensures faults_kept { faults self.old ≤ faults self.new };

    /// Takes a link in whose connection has ended, and why. Takes no memory.
    ///
    /// All that went over the link, from its first byte on, has to be what a session comes to, and
    /// an end by a fault has to be one that the link counted.
    fn finish(&mut self, link: Self::Link, ended: Ended)
        requires held { ∥ Held K.ran ended (line (Self.Link.traffic link)
            (Self.Link.read_faults link) (Self.Link.write_faults link)) ∥₁ }
        requires borne { ∥ IsBorne ended (line (Self.Link.traffic link)
            (Self.Link.read_faults link) (Self.Link.write_faults link)) ∥₁ }
        ensures counted { counts self.new ≡ finished_one (counts self.old) }
        ensures faults_same { faults self.new ≡ faults self.old };

    /// What the door has counted. Takes no memory.
    fn tally(&self) -> Tally
        ensures { result ≡ counts self.now };

    // A sure door never failed a call, and so never fails one.
    ghost sure_calls: { IsTrue is_sure → (door : Self) → faults door ≡ 0 };
}
