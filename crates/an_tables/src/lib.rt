//! Tables of cases as a program reads them, line by line: what a case plays, what is due from it,
//! and the answers to its rows. `crates/an_cases/README.md` has the lines that a case is made of.
#![tactic(auto)]

pub use case::{Case, Kind, noon};
pub use rows::answer_rows;
pub use table::{LineError, Table};

mod case;
mod rows;
mod table;
