//! The numbers that a seed decides.
ghost use Rattle.std.specs.Prelude.{◌≡◌, ◌/◌};
ghost use Rattle.an_trial.specs.Draws.{draws_behind, next};

/// The numbers behind the seed are below this.
const MODULUS: u64 = 2_147_483_648;

/// What is drawn for an annotation.
#[derive(Clone, Copy, Debug)]
pub struct Draws {
    pub group: u32,
    pub first: u32,
    pub second: u32,
    pub third: u32,
}

/// A linear congruential generator, at the last number that was drawn, or at its seed.
#[derive(Debug, Drop)]
pub(crate) struct Generator {
    pub number: u32,
}

impl Generator {
    /// Draws what decides an annotation.
    pub(crate) fn draws(&mut self) -> Draws
        ensures value { result ≡ draws_behind self.old.number }
        ensures number { self.new.number ≡ next (next (next (next self.old.number))) }
    {
        Draws {
            group: self.draw(),
            first: self.draw(),
            second: self.draw(),
            third: self.draw(),
        }
    }

    /// Takes the next number, and gives it divided by 65,536.
    fn draw(&mut self) -> u32
        ensures value { result ≡ self.new.number / 65536 }
        ensures number { self.new.number ≡ next self.old.number }
    {
        self.number = next(self.number);
        self.number / 65_536
    }
}

/// The number behind this one.
fn next(number: u32) -> u32
    ensures { result ≡ next number }
{
    ((1_103_515_245 * u64::from(number) + 12_345) % MODULUS) as u32
}
