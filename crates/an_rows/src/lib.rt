//! Which cells stand for a state, how rows are written into them and read from them, and which
//! cells an entry changes.
//!
//! ```text
//! let now = Format::Second;
//! row_text(alloc, now, &row)                  Ok(bytes): the JSON text that stands in its cell
//! read_row(alloc, now, table, key, &bytes)    Ok(row) again, or Err(RowError::..): it is damaged
//! ```
//!
//! Rows are written in the second format and read in both, of which a store's first cell names one;
//! `migration` is what turns the cells of a store from the first into the second.
#![tactic(auto)]

pub use changes::{cells_of, table_of};
pub use format::{Format, format_of};
pub use laws::{
    cells_read_back, changes_lead_on, former_cells_read_back, migration_leads_on,
    opened_states_are_valid, rows_have_one_text, rows_read_back,
};
pub use refusal::RowError;
pub use row::{read_row, row_text};
pub use turning::migration;

mod activities;
mod changes;
mod cut;
mod fields;
mod format;
mod inner;
mod laws;
mod manifests;
mod members;
mod notes;
mod quick;
mod readers;
mod refusal;
mod row;
mod turning;
mod valid;
