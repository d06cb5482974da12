ghost use Rattle.std.specs.Prelude.{◌≡◌, ◌≤◌};
ghost use Rattle.an_base.specs.Faults.{Rises};
ghost use Rattle.an_world.specs.Calls.{is_next_failing, called, failed};

use std::marker::Model;

/// The calls of one kind that were made of a link in memory.
#[derive(Debug, Drop)]
pub(crate) struct Calls {
    made: u64,
    faults: u64,
    failing: Vec<u64>,
}

impl Model for Calls {
    ghost use Rattle.an_world.specs.Calls.{CallCounts};

    ghost Value = { CallCounts };

    ghost view = { λ c. record { made = c.made; faults = c.faults; failing = c.failing.items } };
}

impl Calls {
    /// No call was made yet; those with these numbers, from 1, fail. Takes no memory.
    pub(crate) fn new(failing: Vec<u64>) -> Calls
        ensures start { result ≡ record { made = 0; faults = 0; failing = failing.items } }
    {
        Calls {
            made: 0,
            faults: 0,
            failing,
        }
    }

    pub(crate) fn is_next_failing(&self) -> bool
        ensures { result ≡ is_next_failing self.now }
    {
        self.failing.contains(&self.made.saturating_add(1))
    }

    pub(crate) fn faults(&self) -> u64
        ensures { result ≡ self.now.faults }
    {
        self.faults
    }

    /// Counts a call that doesn't fail.
    pub(crate) fn call(&mut self)
        ensures { self.new ≡ called self.old }
    {
        self.made = self.made.saturating_add(1);
    }

    /// Counts a call that fails.
    pub(crate) fn fail(&mut self)
        ensures after { self.new ≡ failed self.old }
        ensures rises { Rises self.old.faults self.new.faults }
        ensures kept { self.old.faults ≤ self.new.faults }
    {
        self.made = self.made.saturating_add(1);
        self.faults = self.faults.saturating_add(1);
    }
}
