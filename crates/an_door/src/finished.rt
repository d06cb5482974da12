ghost use Rattle.an_session.specs.Session.{line};
ghost use Rattle.an_door.specs.Ends.{Held, IsBorne};

use crate::sessions::SessionKind;
use an_session::Ended;
use an_world::Link;
use std::marker::PhantomData;

/// A link whose connection has ended, and why. It can be made only of what a session left: all that
/// went over the link is what a session of this kind comes to, and an end by a fault is one that
/// the link counted.
#[derive(Drop)]
pub struct Finished<L: Link, K: SessionKind> {
    pub link: L,
    pub ended: Ended,
    pub kind: PhantomData<K>,
    pub ghost held: { ∥ Held K.ran ended (line (L.traffic link)
        (L.read_faults link) (L.write_faults link)) ∥₁ },
    pub ghost borne: { ∥ IsBorne ended (line (L.traffic link)
        (L.read_faults link) (L.write_faults link)) ∥₁ },
}
