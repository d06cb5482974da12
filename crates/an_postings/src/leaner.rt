ghost use Rattle.std.specs.Prelude.{◌≡◌, ◌-◌, ◌≤◌, ◌&&◌, ◌==◌, ℕ, [], false, true};
ghost use Rattle.an_slots.specs.Classed.{IsAt};
ghost use Rattle.an_slots.specs.Places.{Rises, without_place};
ghost use Rattle.an_postings.specs.Change.{IsLeaner, IsOut};
ghost use Rattle.an_postings.specs.Lists.{IsOrdered, class_of, count_at, room_at};

use crate::class_postings::ClassPostings;

/// Takes the place out of the list of this class, and so many times from its count. Where no memory
/// stays, what is of no use any more is given back. It takes no memory.
pub(crate) fn take_out_at(
    lists: &mut Vec<ClassPostings>,
    at: usize,
    class: usize,
    place: u32,
    times: u64,
    stays: bool,
)
    requires ordered { IsOrdered lists.old.items }
    requires here { IsAt class_of class lists.old.items at }
    requires enough { times ≤ count_at lists.old.items class }
    ensures ordered { IsOrdered lists.new.items }
    ensures out { IsOut stays class place times lists.old.items lists.new.items }
{
    out_at(lists, at, class, place, times);
    if !stays {
        let_go_at(lists, at, class);
    }
}

fn out_at(lists: &mut Vec<ClassPostings>, at: usize, class: usize, place: u32, times: u64)
    requires ordered { IsOrdered lists.old.items }
    requires here { IsAt class_of class lists.old.items at }
    requires enough { times ≤ count_at lists.old.items class }
    ensures ordered { IsOrdered lists.new.items }
    ensures here { IsAt class_of class lists.new.items at }
    ensures out { IsOut true class place times lists.old.items lists.new.items }
{
    out_of(&mut lists[at], place, times);
}

fn out_of(own: &mut ClassPostings, place: u32, times: u64)
    requires rises { Rises 0 own.old.places.items }
    requires enough { times ≤ own.old.count }
    ensures class { own.new.class ≡ own.old.class }
    ensures rises { Rises 0 own.new.places.items }
    ensures places { own.new.places.items ≡ without_place place own.old.places.items }
    ensures room { own.old.places.room ≤ own.new.places.room }
    ensures count { own.new.count ≡ own.old.count - times }
{
    own.places.remove(place);
    own.count -= u128::from(times);
}

/// Drops the list of this class, where it has no place and no count, or gives back memory that it
/// has no use for. It takes no memory.
pub(crate) fn let_go_at(lists: &mut Vec<ClassPostings>, at: usize, class: usize)
    requires ordered { IsOrdered lists.old.items }
    requires here { IsAt class_of class lists.old.items at }
    ensures ordered { IsOrdered lists.new.items }
    ensures leaner { IsLeaner lists.old.items lists.new.items }
    ensures others { (c : ℕ) → (c == class) ≡ false
        → room_at lists.old.items c ≤ room_at lists.new.items c }
{
    if is_bare(&lists[at]) {
        let _ = lists.remove(at);
        slim(lists);
    } else {
        lists[at].places.slim();
    }
}

fn is_bare(own: &ClassPostings) -> bool
    ensures places { result ≡ true → own.now.places.items ≡ [] }
    ensures count { result ≡ true → own.now.count ≡ 0 }
{
    own.places.is_empty() && own.count == 0
}

/// Gives back half of the memory and more, where less than a quarter of it is in use. Where the
/// smaller memory can't be had, the larger stays.
pub(crate) fn slim<T>(list: &mut Vec<T>)
    ensures items { list.new.items ≡ list.old.items }
{
    let used = list.len();
    if used < list.capacity() / 4 {
        list.shrink_to(used * 2);
    }
}
