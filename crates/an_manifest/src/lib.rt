//! Manifests of the IIIF Presentation API 3.0: their trees, their canvases, and what is kept of
//! them.
//!
//! ```text
//! manifest_refusal({"type":"Manifest","label":{"en":["A book"]},"items":[]})
//!     Some(SheetError::Items): a manifest has one canvas at least
//! ```
#![tactic(auto)]

pub use cut::{Cut, Part, SheetCuts};
pub use kept::KeptSheet;
pub use sheet::{Sheet, SheetError, manifest_refusal, read_manifest};

mod cut;
mod kept;
mod shape;
mod sheet;
