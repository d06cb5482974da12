//! The codes by which refusals are reported, and the names of the parameters of a query.
//!
//! ```text
//! Code::Absent.text()                            "absent"
//! Code::Twice { name: Parameter::Page }.text()   "twice"
//! ```
#![tactic(auto)]

pub use code::Code;
pub use parameter::Parameter;

mod code;
mod parameter;
