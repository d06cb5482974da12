ghost use Rattle.std.specs.Prelude.{◌≡◌, ◌++◌, IfOk, flat_map, if◌then◌else◌};
ghost use Rattle.an_slots.specs.Places.{Rises, ascending};
ghost use Rattle.an_postings.specs.Gather.{AllRise};

use std::alloc::{AllocError, Global};

/// Ascending lists as one, each place once.
pub(crate) fn merged(alloc: Global, lists: &[&[u32]]) -> Result<Vec<u32>, AllocError>
    requires rise { AllRise lists.now }
    ensures places { IfOk result (λ places. places.items
        ≡ ascending (flat_map (λ l. l.now) lists.now)) }
{
    let count = lists.len();
    if count == 0 {
        return Ok(Vec::new(alloc));
    }
    if count == 1 {
        return copied(alloc, lists[0]);
    }
    if count == 2 {
        return merge(alloc, lists[0], lists[1]);
    }
    let half = count / 2;
    let front = merged(alloc, &lists[..half])?;
    let back = merged(alloc, &lists[half..])?;
    merge(alloc, front.as_slice(), back.as_slice())
}

/// Two ascending lists as one, each place once.
fn merge(alloc: Global, a: &[u32], b: &[u32]) -> Result<Vec<u32>, AllocError>
    requires a { Rises 0 a.now }
    requires b { Rises 0 b.now }
    ensures places { IfOk result (λ places. places.items ≡ ascending (a.now ++ b.now)) }
{
    let mut places = Vec::new(alloc);
    places.reserve(a.len() + b.len())?;
    let mut i = 0;
    let mut j = 0;
    while i < a.len() && j < b.len() {
        let x = a[i];
        let y = b[j];
        places.push_reserved(x.min(y));
        i += one_if(x <= y);
        j += one_if(y <= x);
    }
    places.extend_from_slice(&a[i..])?;
    places.extend_from_slice(&b[j..])?;
    Ok(places)
}

pub(crate) fn one_if(test: bool) -> usize
    ensures { result ≡ (if test then 1 else 0) }
{
    if test { 1 } else { 0 }
}

/// The same places.
pub(crate) fn copied(alloc: Global, list: &[u32]) -> Result<Vec<u32>, AllocError>
    ensures places { IfOk result (λ places. places.items ≡ list.now) }
{
    let mut places = Vec::new(alloc);
    places.extend_from_slice(list)?;
    Ok(places)
}

/// The same places as indices.
pub(crate) fn wide(alloc: Global, list: &[u32]) -> Result<Vec<usize>, AllocError>
    ensures places { IfOk result (λ places. places.items ≡ list.now) }
{
    let mut places = Vec::new(alloc);
    places.reserve(list.len())?;
    for place in list {
        places.push_reserved(*place as usize);
    }
    Ok(places)
}
