use an_keep::{Cell, Change, KeepError, Keeper};

/// A keeper that is lent to a store, so that it is there behind one that isn't opened too.
#[derive(Drop)]
pub struct Lent<'a, K: Keeper> {
    pub keeper: &'a mut K,
}

impl<'a, K: Keeper> Keeper for Lent<'a, K> {
    ghost told = { λ l. K.told l.keeper.now };

    ghost faults = { λ l. K.faults l.keeper.now };

    ghost is_sure = { K.is_sure };

    ghost may_begin = { K.may_begin };

    ghost sure_keeps = { λ sure l. K.sure_keeps sure l.keeper.now };

    fn commit(&mut self, changes: &[Change]) -> Result<(), KeepError> {
        self.keeper.commit(changes)
    }

    fn first(&mut self) -> Result<Option<Cell>, KeepError> {
        self.keeper.first()
    }

    fn next_after(&mut self, tab: u8, key: u64) -> Result<Option<Cell>, KeepError> {
        self.keeper.next_after(tab, key)
    }
}
