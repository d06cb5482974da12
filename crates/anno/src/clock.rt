use an_base::Moment;
use an_world::Clock;
use std::time::{self, SystemTime, UNIX_EPOCH};

/// The clock of the system. Where it can't be read, or what it tells is no moment, it answers the
/// first moment of all, so that a write has the moment of the last change before it.
#[derive(Drop)]
pub struct RealClock<'a, R: time::Clock> {
    rt: &'a R,
}

impl<'a, R: time::Clock> RealClock<'a, R> {
    pub fn new(rt: &'a R) -> RealClock<'a, R> {
        RealClock { rt }
    }
}

impl<'a, R: time::Clock> Clock for RealClock<'a, R> {
    ghost use Rattle.std.specs.Prelude.{true};

    // Any moment.
    ghost answers = { λ clock moment. true };

    fn now(&self) -> Moment {
        match system_moment(self.rt) {
            Some(moment) => moment,
            None => first_moment(),
        }
    }
}

/// The moment that the system tells, if it tells one.
fn system_moment<R: time::Clock>(rt: &R) -> Option<Moment> {
    let now = SystemTime::now(rt).ok()?;
    let since = now.duration_since(UNIX_EPOCH).ok()?;
    Moment::new(i64::try_from(since.as_secs()).ok()?)
}

/// 0000-01-01T00:00:00Z.
fn first_moment() -> Moment {
    match Moment::new(-62_167_219_200) {
        Some(moment) => moment,
        None => unreachable!(),
    }
}

/// The second of the clock that never goes back, from some beginning on, or 0 where it can't be
/// read.
pub fn second_now<R: time::Clock>(rt: &R) -> u64 {
    match rt.monotonic() {
        Ok(since) => since.as_secs(),
        Err(_) => 0,
    }
}
