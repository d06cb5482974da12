ghost use Rattle.std.specs.Prelude.{◌≡◌};

use an_store::{Naming, Seat};
use std::marker::PhantomData;

mod steps;

/// A seat of the store of this name, at which requests are answered.
#[derive(Drop)]
pub(crate) struct SeatService<J: Naming> {
    pub(crate) seat: Seat,
    pub(crate) of: PhantomData<J>,
    ghost here: { seat.book ≡ J.book },
}
