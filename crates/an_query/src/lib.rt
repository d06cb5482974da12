//! The queries of requests: what their pairs give to the parameters that are read.
//!
//! ```text
//! read_query(alloc, &SEARCH_PARAMETERS, "q=heron&page=2")
//!     Ok(query), which asks for the second page of what has "heron"
//! read_query(alloc, &SEARCH_PARAMETERS, "page=0")   Err(QueryError::Page)
//! ```
#![tactic(auto)]

pub use dates::{DateRange, bad_date, range_of};
pub use filters::{Filters, append_filters, filters_in};
pub use form::append_given;
pub use given::{copied_value, is_bad_number, number_in, others_in, twice_in, value_in};
pub use pairs::{Pair, escaped_text, query_pairs, text_of};
pub use query::{Query, QueryError, SEARCH_PARAMETERS, query_in, read_query};

mod dates;
mod filters;
mod form;
mod given;
mod lent;
mod pairs;
mod query;
