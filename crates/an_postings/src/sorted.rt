ghost use Rattle.std.specs.Prelude.{◌≡◌, ◌++◌, IfOk, OnOk, flat_map};
ghost use Rattle.an_slots.specs.Places.{ascending};

use std::alloc::{AllocError, Global};

/// Many lists as one, ascending, each place once.
pub(crate) fn sorted(alloc: Global, lists: &[&[u32]]) -> Result<Vec<u32>, AllocError>
    ensures places { IfOk result (λ places. places.items
        ≡ ascending (flat_map (λ l. l.now) lists.now)) }
{
    let mut places = joined(alloc, lists)?;
    places.sort_unstable();
    places.dedup();
    Ok(places)
}

fn joined(alloc: Global, lists: &[&[u32]]) -> Result<Vec<u32>, AllocError>
    ensures places { IfOk result (λ places. places.items ≡ flat_map (λ l. l.now) lists.now) }
{
    let mut places = Vec::new(alloc);
    for list in lists {
        append(&mut places, list)?;
    }
    Ok(places)
}

fn append(places: &mut Vec<u32>, list: &[u32]) -> Result<(), AllocError>
    ensures ok { OnOk result (places.new.items ≡ places.old.items ++ list.now) }
{
    places.extend_from_slice(list)?;
    Ok(())
}
