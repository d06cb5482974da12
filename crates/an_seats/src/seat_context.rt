ghost use Rattle.std.specs.Prelude.{◌≡◌, IsTrue};
ghost use Rattle.an_base.specs.Moment.{IsMoment};

use an_base::Moment;
use an_keep::Keeper;
use an_list::Site;
use an_store::{Naming, Store};
use an_world::Clock;
use std::marker::Model;
use std::sync::Wait;

/// By what requests are answered at the seats of a store. Contracts see the settings and the clock.
#[derive(Drop)]
pub(crate) struct SeatContext<'a, R: Wait, K: Keeper, J: Naming, C: Clock> {
    rt: &'a R,
    store: &'a Store<K, J>,
    settings: &'a Site,
    clock: &'a C,
}

impl<'a, R: Wait, K: Keeper, J: Naming, C: Clock> Model for SeatContext<'a, R, K, J, C> {
    ghost use Rattle.an_serve.specs.Setting.{Setting};

    ghost Value = { Setting C };

    ghost view = { λ p. record { site = p.settings.now; clock = p.clock.now } };
}

impl<'a, R: Wait, K: Keeper, J: Naming, C: Clock> SeatContext<'a, R, K, J, C> {
    pub(crate) fn new(
        rt: &'a R,
        store: &'a Store<K, J>,
        settings: &'a Site,
        clock: &'a C,
    ) -> SeatContext<'a, R, K, J, C>
        ensures site { result.site ≡ settings.now }
        ensures clock { result.clock ≡ clock.now }
    {
        SeatContext {
            rt,
            store,
            settings,
            clock,
        }
    }

    pub(crate) fn rt(&self) -> &R {
        self.rt
    }

    pub(crate) fn store(&self) -> &Store<K, J> {
        self.store
    }

    pub(crate) fn settings(&self) -> &Site
        ensures { result.now ≡ self.now.site }
    {
        self.settings
    }

    /// A moment that the clock tells.
    pub(crate) fn moment(&self) -> Moment
        ensures answered { IsTrue (C.answers self.now.clock result) }
        ensures moment { IsMoment result }
    {
        self.clock.now()
    }
}
