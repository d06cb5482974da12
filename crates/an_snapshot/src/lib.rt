//! A snapshot: a look at a state that is answered from lists.
//!
//! ```text
//! snapshot.apply(&entry)  Ok(()): the state with the entry; Err: out of memory, nothing changes
//! snapshot.count()        1: how many entries were applied, also those that didn't fit
//! snapshot.readable(alloc, &who, &manifest)  Ok(places of annotations that the caller may read)
//! ```
#![tactic(auto)]

pub use snapshot::Snapshot;

mod absorb;
mod change;
mod changes;
mod copying;
mod deciding;
mod filing;
mod fits;
mod last_rows;
mod look;
mod pair_lists;
mod pairs;
mod plan;
mod planned_row;
mod prepare;
mod put;
mod seen;
mod seen_lists;
mod snapshot;
mod stream;
