ghost use Rattle.std.specs.Prelude.{◌≡◌};

use an_base::Moment;

/// What tells the moment of a write.
pub trait Clock {
    ghost use Rattle.std.specs.Prelude.{Bool, ℤ, IsTrue};
    ghost use Rattle.an_base.specs.Moment.{IsMoment};

    // Whether this clock may answer this moment.
    ghost answers: { Self → ℤ → Bool };

    /// A moment that the clock answers, of the years 0000 to 9999. Takes no memory.
    fn now(&self) -> Moment
        ensures answered { IsTrue (answers self.now result) }
        ensures moment { IsMoment result };
}

/// A clock that stands still at its moment.
#[derive(Clone, Copy, Debug, PartialEq, Eq)]
pub struct SetClock(pub Moment);

impl Clock for SetClock {
    ghost use Rattle.std.specs.Ordering.{int_eq};
    ghost use Rattle.an_base.specs.Moment.{IsMoment};

    // Its moment alone.
    ghost answers = { λ clock moment. int_eq moment clock.0 };

    fn now(&self) -> Moment
        ensures set { result ≡ self.now.0 }
        ensures moment { IsMoment result }
    {
        // A call tells that its value is one.
        let _seconds = self.0.seconds();
        self.0
    }
}
