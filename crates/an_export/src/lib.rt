//! An export: what a caller sees, as lines that can be imported again.
//!
//! ```text
//! export(alloc, &look, &who, &mut steps)
//!     Ok("2026-05-01T10:00:00Z edda PUT /manifests/m1?version=1&group=public {..}\n..")
//! ```
#![tactic(auto)]

pub use exporting::export;
pub use laws::groups_are_put_again;

mod exporting;
mod laws;
mod line;
mod shown;
