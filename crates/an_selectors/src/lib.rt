//! What annotations select of a text or an image: selectors, regions, and places in a text.
//!
//! ```text
//! read_xywh("xywh=pixel:10,20,300,40")   the region at 10, 20 that is 300 wide and 40 high
//! read_xywh("xywh=percent:0,0,5,5")      None: only pixels are read
//! ```
#![tactic(auto)]

pub use an_base::Span;
pub use place::places;
pub use quote::{Quote, quote_at};
pub use region::{Xywh, read_region_numbers, read_xywh};
pub use selector::{Selector, SelectorError, read_selector, selector_refusal};

mod cut;
mod lent;
mod place;
mod quote;
mod region;
mod selector;
mod walk;
