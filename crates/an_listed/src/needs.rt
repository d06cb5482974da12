ghost use Rattle.std.specs.Prelude.{◌≡◌, ◌+◌, ◌<◌, ◌^◌, IfOk, OnOk, flat_map};
ghost use Rattle.std.specs.Option.{option_copied};
ghost use Rattle.an_postings.specs.Postings.{count_in};
ghost use Rattle.an_slots.specs.Rows.{parts_of};
ghost use Rattle.an_slots.specs.Slot.{Slot, at, slot_of};
ghost use Rattle.an_listed.specs.Keys.{parts_by};
ghost use Rattle.an_listed.specs.Room.{times, wanted_at};

use crate::filed::Filed;
use crate::keys::{Keys, keys_by};
use crate::kind::Kind;
use an_postings::Postings;
use std::alloc::{AllocError, Global};

/// For how many places the list of a slot is to have room: as many as were counted there, or one.
pub(crate) fn wanted(needed: Option<&Postings>, manifest: &str, term: &str, class: usize) -> usize
    ensures { result
        ≡ wanted_at (option_copied needed.entry) (slot_of manifest.now term.now class) }
{
    match needed {
        Some(counts) => counts.total(manifest, term, &[class]) as usize,
        None => 1,
    }
}

/// How many of the rows each list of a kind is to have.
pub(crate) fn needed(alloc: Global, kind: Kind, rows: &[Filed]) -> Result<Postings, AllocError>
    ensures needed { IfOk result (λ needed. (slot : Slot)
        → count_in needed slot ≡ times slot (flat_map (parts_by kind) rows.now)) }
    ensures small { IfOk result (λ needed. (slot : Slot) → count_in needed slot < 2 ^ 64) }
{
    let mut needed = Postings::new(alloc);
    for row in rows {
        count_row(&mut needed, kind, row)?;
    }
    Ok(needed)
}

fn count_row(needed: &mut Postings, kind: Kind, row: &Filed) -> Result<(), AllocError>
    requires small { (slot : Slot)
        → count_in needed.old slot + times slot (parts_by kind row.now) < 2 ^ 128 }
    ensures count { OnOk result ((slot : Slot) → count_in needed.new slot
        ≡ count_in needed.old slot + times slot (parts_by kind row.now)) }
{
    match keys_by(kind, row) {
        Some(keys) => count_keys(needed, &keys),
        None => Ok(()),
    }
}

fn count_keys(needed: &mut Postings, keys: &Keys<'_>) -> Result<(), AllocError>
    requires small { (slot : Slot)
        → count_in needed.old slot + times slot (parts_of keys.now) < 2 ^ 128 }
    ensures count { OnOk result ((slot : Slot) → count_in needed.new slot
        ≡ count_in needed.old slot + times slot (parts_of keys.now)) }
{
    let manifest = keys.manifest();
    let class = keys.class();
    for at in 0..keys.len() {
        count_one(needed, manifest, keys.term(at), class)?;
    }
    Ok(())
}

/// Counts one row more, at the place 0, which nobody asks for.
fn count_one(
    needed: &mut Postings,
    manifest: &str,
    term: &str,
    class: usize,
) -> Result<(), AllocError>
    requires small { count_in needed.old (slot_of manifest.now term.now class) + 1 < 2 ^ 128 }
    ensures count { OnOk result (count_in needed.new
        ≡ at (slot_of manifest.now term.now class) (λ m. m + 1) (count_in needed.old)) }
{
    needed.room_add(manifest, term, class, 1)?;
    needed.add(manifest, term, class, 0, 1);
    Ok(())
}
