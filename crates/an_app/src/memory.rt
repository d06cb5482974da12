//! A run over cells in memory.
ghost use Rattle.std.specs.Prelude.{◌≡◌, ℕ, Err, IfSome, Ok, map, string_bytes};
ghost use Rattle.an_rows.specs.Cells.{state_of};
ghost use Rattle.an_state.specs.State.{State};
ghost use Rattle.an_app.specs.Form.{form_of};
ghost use Rattle.an_app.specs.Exact.{IsOfOpened, OpensStore};

use crate::program::run;
use crate::ran::Ran;
use an_door::Door;
use an_keep::MemKeeper;
use an_lines::Status;
use an_seats::AtStores;
use an_world::{Clock, Link};
use std::alloc::Global;
use std::sync::Wait;
use std::thread::Threads;

/// Does what the words say, as `run` does, over cells in memory. They are told before the run and
/// after it, so its status says exactly what they stood for: with the one for damage they stand for
/// no state, and the cell that it names is the first damaged one; with any other that a run has
/// once its store is open, they stand for a state.
pub fn run_in_memory<
    R: Threads + Wait + Sync,
    L: Link,
    T: Link + Send,
    D: Door<AtStores<MemKeeper>, Link = T> + Send,
    C: Clock + Sync,
>(
    rt: &R,
    alloc: Global,
    words: &[String],
    keeper: MemKeeper,
    link: &mut L,
    door: &mut D,
    clock: &C,
) -> Ran<MemKeeper>
    requires unbound { (D.counts door.old).port ≡ 0 }
    ensures damaged { (tab key : ℕ) → result.status ≡ Status.Damaged tab key
        → state_of keeper.cells ≡ Err (record { tab = tab; key = key }) }
    ensures stands { IfSome (form_of (map string_bytes words.now)) (λ form. OpensStore form
        → IsOfOpened result.status → (s : State) × (state_of keeper.cells ≡ Ok s)) }
{
    run(rt, alloc, words, keeper, link, door, clock)
}
