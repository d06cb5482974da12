//! Rows of cases: calls of the crates below the server, each an argument and the answer that is
//! due. They show definitions, by values from the standards and from the rules, and that calls
//! which take memory succeed where there is enough. What a contract says in full, and a line shows,
//! has no row.
#![tactic(auto)]

pub use call::{Call, call_named};
pub use hex::hex_bytes;
pub use numbers::{add_numbers, number};
pub use row_calls::{cell_shown, look_at};
pub use rows::{Answers, RowError, two_parts, two_words};
pub use twin_calls::TwinRows;

mod anchor_calls;
mod call;
mod differences;
mod harvest_calls;
mod hex;
mod http_calls;
mod index_calls;
mod model_calls;
mod numbers;
mod policy_calls;
mod rounds;
mod row_calls;
mod rows;
mod selector_calls;
mod shown;
mod step_calls;
mod text_calls;
mod tree_calls;
mod twin_calls;
