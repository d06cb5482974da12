ghost use Rattle.std.specs.Prelude.{◌≡◌, ◌+◌, ◌≤◌, ◌||◌, IsTrue, nat_lt};
ghost use Rattle.std.specs.VecDeque.{deque_len, deque_capacity};
ghost use Rattle.an_slots.specs.Places.{Rises, has, with_place, without_place};

use std::collections::VecDeque;

/// Adds the place, if it isn't there. It takes no memory.
pub(crate) fn add_to(places: &mut VecDeque<u32>, place: u32)
    requires rises { Rises 0 places.old.items }
    requires room { IsTrue (has place places.old.items
        || nat_lt (deque_len places.old) (deque_capacity places.old)) }
    ensures rises { Rises 0 places.new.items }
    ensures places { places.new.items ≡ with_place place places.old.items }
    ensures room { deque_capacity places.old + deque_len places.new
        ≤ deque_capacity places.new + (deque_len places.old + 1) }
{
    match places.binary_search(&place) {
        Ok(_) => {}
        Err(at) => match places.insert(at, place) {
            Ok(()) => {}
            Err(_) => unreachable!(),
        },
    }
}

/// Takes the place out, if it is there. It takes no memory.
pub(crate) fn remove_from(places: &mut VecDeque<u32>, place: u32)
    requires rises { Rises 0 places.old.items }
    ensures rises { Rises 0 places.new.items }
    ensures places { places.new.items ≡ without_place place places.old.items }
    ensures room { deque_capacity places.old + deque_len places.new
        ≤ deque_capacity places.new + deque_len places.old }
{
    match places.binary_search(&place) {
        Ok(at) => {
            let _ = places.remove(at);
        }
        Err(_) => {}
    }
}

/// Whether the place is among these, which ascend. It takes no memory.
pub(crate) fn is_in(places: &[u32], place: usize) -> bool
    ensures { Rises 0 places.now → result ≡ has place places.now }
{
    places
        .binary_search_by_key(&place, |own| *own as usize)
        .is_ok()
}
