ghost use Rattle.std.specs.Prelude.{◌≡◌, OnOk, flat_map};
ghost use Rattle.std.specs.Option.{option_copied};
ghost use Rattle.an_slots.specs.Rows.{parts_of};
ghost use Rattle.an_listed.specs.Keys.{parts_by};
ghost use Rattle.an_listed.specs.Room.{AreSame, HasRowSpace, HasSpace, HasWanted, IsSame};

use crate::filed::Filed;
use crate::keys::{Keys, keys_by};
use crate::kind::Kind;
use crate::needs::{needed, wanted};
use crate::register::Register;
use an_postings::Postings;
use std::alloc::{AllocError, Global};

impl Register {
    /// Takes the memory that these rows need: in each list for as many places more as there are
    /// rows in it.
    pub(crate) fn room(&mut self, alloc: Global, rows: &[Filed]) -> Result<(), AllocError>
        ensures ok { OnOk result (HasSpace rows.now self.new) }
        ensures same { AreSame self.old self.new }
    {
        room_in(alloc, &mut self.words, Kind::Words, rows)?;
        room_in(alloc, &mut self.anywhere, Kind::Anywhere, rows)?;
        room_in(alloc, &mut self.whole, Kind::Whole, rows)
    }
}

/// The same in the lists of a kind.
fn room_in(
    alloc: Global,
    lists: &mut Postings,
    kind: Kind,
    rows: &[Filed],
) -> Result<(), AllocError>
    ensures ok { OnOk result (HasRowSpace kind rows.now lists.new) }
    ensures same { IsSame lists.old lists.new }
{
    if rows.len() < 2 {
        return room_for_all(lists, kind, rows, None);
    }
    let needed = needed(alloc, kind, rows)?;
    room_for_all(lists, kind, rows, Some(&needed))
}

fn room_for_all(
    lists: &mut Postings,
    kind: Kind,
    rows: &[Filed],
    needed: Option<&Postings>,
) -> Result<(), AllocError>
    ensures ok { OnOk result (HasWanted (option_copied needed.entry)
        (flat_map (parts_by kind) rows.now) lists.new) }
    ensures same { IsSame lists.old lists.new }
{
    for row in rows {
        room_for(lists, kind, row, needed)?;
    }
    Ok(())
}

fn room_for(
    lists: &mut Postings,
    kind: Kind,
    row: &Filed,
    needed: Option<&Postings>,
) -> Result<(), AllocError>
    ensures ok { OnOk result (HasWanted (option_copied needed.entry)
        (parts_by kind row.now) lists.new) }
    ensures same { IsSame lists.old lists.new }
{
    match keys_by(kind, row) {
        Some(keys) => room_for_keys(lists, &keys, needed),
        None => Ok(()),
    }
}

fn room_for_keys(
    lists: &mut Postings,
    keys: &Keys<'_>,
    needed: Option<&Postings>,
) -> Result<(), AllocError>
    ensures ok { OnOk result (HasWanted (option_copied needed.entry)
        (parts_of keys.now) lists.new) }
    ensures same { IsSame lists.old lists.new }
{
    let manifest = keys.manifest();
    let class = keys.class();
    for at in 0..keys.len() {
        let term = keys.term(at);
        let more = wanted(needed, manifest, term, class);
        lists.room_add(manifest, term, class, more)?;
    }
    Ok(())
}
