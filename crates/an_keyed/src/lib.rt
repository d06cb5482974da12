//! Rows that are kept in a list and found by their keys.
//!
//! ```text
//! rows.put(row)              takes the place of the row with this key, or stands at the end
//! rows.find(None, &name)     Some(&row) where a row has this key
//! ```
#![tactic(auto)]

pub use hashes::{Hashes, short_hash};
pub use key::{Keyed, is_same_owner};
pub use log::Log;
pub use mark::Marked;
pub use marked::MarkedRows;
pub use rows::Rows;

mod hashes;
mod key;
mod log;
mod mark;
mod marked;
mod places;
mod rows;
