ghost use Rattle.std.specs.Prelude.{◌≡◌, ◌≤◌, ◌↔◌, ℕ, List, Err, IfOk};
ghost use Rattle.an_base.specs.Faults.{Rises};
ghost use Rattle.an_harvest.specs.declared.fetch.Got.{Got};

use an_base::Bytes;
use std::alloc::Global;

/// What was got for a target: the status of the answer and its body.
#[derive(Debug, PartialEq, Eq, Drop)]
pub struct Got {
    pub status: u16,
    pub body: Bytes,
}

/// Why nothing was got for a target.
#[derive(Clone, Copy, Debug, PartialEq, Eq)]
pub enum FetchError {
    /// The fetch failed, and has counted it.
    Failed,
    Memory,
}

/// What gets answers to targets.
///
/// No call changes what is an answer to a target. A call fails only where the count of faults
/// rises, and the count never falls; it stands still at `u64::MAX`.
pub trait Fetch {
    ghost use Rattle.std.specs.Prelude.{ℕ, List};
    ghost use Rattle.an_harvest.specs.declared.fetch.Got.{Got};

    // What may be got for a target. Of a fetch that reveals nothing that is everything.
    ghost answers: { Self → List ℕ → Got → Type 0 };

    ghost faults: { Self → ℕ };

    /// Gets the answer to a target.
    fn get(&mut self, alloc: Global, target: &str) -> Result<Got, FetchError>
        ensures answer { IfOk result (λ got. answers self.old target.now got) }
        ensures same { (other : List ℕ) (got : Got) → answers self.new other got
            ↔ answers self.old other got }
        ensures fault { result ≡ Err FetchError.Failed → Rises (faults self.old) (faults self.new) }
        ensures faults_kept { faults self.old ≤ faults self.new };
}
