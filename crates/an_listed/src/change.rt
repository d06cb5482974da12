ghost use Rattle.std.specs.Prelude.{◌≡◌, ◌+◌, ◌-◌, ◌++◌, ◌<◌, ◌≤◌, ◌^◌, ◌||◌, List, ℕ, length};
ghost use Rattle.std.specs.Prelude.{if◌then◌else◌, not, true};
ghost use Rattle.an_postings.specs.Postings.{count_in, places_in, room_in};
ghost use Rattle.an_slots.specs.Places.{without_place};
ghost use Rattle.an_slots.specs.Rows.{IsThere, added, is_posted, parts_at, parts_in, parts_of};
ghost use Rattle.an_slots.specs.Rows.{posted, taken, unposted};
ghost use Rattle.an_slots.specs.Slot.{Slot, at as at_slot, same_slot, slot_of};
ghost use Rattle.an_listed.specs.Keys.{slot_at, total_at};
ghost use Rattle.an_listed.specs.Left.{left_parts};
ghost use Rattle.an_listed.specs.Room.{IsEnough, IsKeptBut};

use crate::keys::Keys;
use an_postings::Postings;

/// Takes the place of a row out of the lists that it is found in by `old`, but for those that the
/// row in its place is found in by `new`, and takes how often each term occurs from its count.
/// Where no more rows are to come, such a list keeps no memory of no use.
pub(crate) fn take(
    lists: &mut Postings,
    old: &Option<Keys<'_>>,
    new: &Option<Keys<'_>>,
    place: usize,
    more: bool,
)
    requires place { place < 2 ^ 32 }
    requires there { IsThere (count_in lists.old) (parts_in old.now) }
    ensures places { places_in lists.new ≡ unposted place (places_in lists.old)
        (left_parts (parts_in new.now) (parts_in old.now)) }
    ensures counts { count_in lists.new ≡ taken (count_in lists.old) (parts_in old.now) }
    ensures kept { IsKeptBut more (left_parts (parts_in new.now) (parts_in old.now))
        lists.old lists.new }
{
    match old {
        Some(keys) => take_all(lists, keys, new, place, more),
        None => {}
    }
}

fn take_all(lists: &mut Postings, keys: &Keys<'_>, new: &Option<Keys<'_>>, place: usize, more: bool)
    requires place { place < 2 ^ 32 }
    requires there { IsThere (count_in lists.old) (parts_of keys.now) }
    ensures places { places_in lists.new ≡ unposted place (places_in lists.old)
        (left_parts (parts_in new.now) (parts_of keys.now)) }
    ensures counts { count_in lists.new ≡ taken (count_in lists.old) (parts_of keys.now) }
    ensures kept { IsKeptBut more (left_parts (parts_in new.now) (parts_of keys.now))
        lists.old lists.new }
{
    for at in 0..keys.len() {
        take_one(lists, keys, at, new, place, more);
    }
}

/// The same of one term.
fn take_one(
    lists: &mut Postings,
    keys: &Keys<'_>,
    at: usize,
    new: &Option<Keys<'_>>,
    place: usize,
    more: bool,
)
    requires within { at < length keys.now.terms }
    requires place { place < 2 ^ 32 }
    requires enough { total_at keys.now at ≤ count_in lists.old (slot_at keys.now at) }
    ensures places { places_in lists.new
        ≡ (if is_posted (slot_at keys.now at) (parts_in new.now)
        then places_in lists.old
        else at_slot (slot_at keys.now at) (without_place place) (places_in lists.old)) }
    ensures counts { count_in lists.new
        ≡ at_slot (slot_at keys.now at) (λ m. m - total_at keys.now at) (count_in lists.old) }
    ensures kept { (slot : Slot)
        → (more || (is_posted (slot_at keys.now at) (parts_in new.now)
        || not (same_slot slot (slot_at keys.now at)))) ≡ true
        → room_in lists.old slot ≤ room_in lists.new slot }
{
    let manifest = keys.manifest();
    let class = keys.class();
    let term = keys.term(at);
    if are_at(new, manifest, class, term) {
        lists.take(manifest, term, class, keys.total(at));
    } else {
        lists.take_out(manifest, term, class, place, keys.total(at), more);
    }
}

/// Whether a row that is found by these is found there.
fn are_at(keys: &Option<Keys<'_>>, manifest: &str, class: usize, term: &str) -> bool
    ensures { result ≡ is_posted (slot_of manifest.now term.now class) (parts_in keys.now) }
{
    match keys {
        Some(keys) => keys.are_at(manifest, class, term),
        None => false,
    }
}

/// Puts the place of a row into the lists that it is found in by these, and adds how often each
/// term occurs to its count.
pub(crate) fn put(lists: &mut Postings, keys: &Option<Keys<'_>>, place: usize)
    requires place { place < 2 ^ 32 }
    requires room { IsEnough (parts_in keys.now) lists.old }
    requires small { (slot : Slot)
        → count_in lists.old slot + parts_at (parts_in keys.now) slot < 2 ^ 128 }
    ensures places { places_in lists.new ≡ posted place (places_in lists.old) (parts_in keys.now) }
    ensures counts { count_in lists.new ≡ added (count_in lists.old) (parts_in keys.now) }
    ensures rest { (rest : List (Slot × ℕ))
        → IsEnough (parts_in keys.now ++ rest) lists.old → IsEnough rest lists.new }
{
    match keys {
        Some(keys) => put_all(lists, keys, place),
        None => {}
    }
}

fn put_all(lists: &mut Postings, keys: &Keys<'_>, place: usize)
    requires place { place < 2 ^ 32 }
    requires room { IsEnough (parts_of keys.now) lists.old }
    requires small { (slot : Slot)
        → count_in lists.old slot + parts_at (parts_of keys.now) slot < 2 ^ 128 }
    ensures places { places_in lists.new ≡ posted place (places_in lists.old) (parts_of keys.now) }
    ensures counts { count_in lists.new ≡ added (count_in lists.old) (parts_of keys.now) }
    ensures rest { (rest : List (Slot × ℕ))
        → IsEnough (parts_of keys.now ++ rest) lists.old → IsEnough rest lists.new }
{
    let manifest = keys.manifest();
    let class = keys.class();
    for at in 0..keys.len() {
        lists.add(manifest, keys.term(at), class, place, keys.total(at));
    }
}
