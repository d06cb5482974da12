//! What plays lines: `find`, `import` and `trial`, and `export`, which prints lines; `harvest`,
//! which prints what a caller finds by the changes that it sees; and how a run ends.
//!
//! ```text
//! import(alloc, &mut link, &mut desk)
//!     Status::Done      all lines were written: "accepted 6 repeated 0 old 0" was printed
//!     Status::Refused   those before a refused line: "line 7 refused: not_own" was printed
//! ```
#![tactic(auto)]

pub use exporting::export;
pub use harvesting::{harvest, harvest_look};
pub use importing::import;
pub use lines::find;
pub use status::Status;
pub use told::{tell, tell_report};
pub use trials::trial;

mod asked;
mod counts;
mod exporting;
mod harvesting;
mod import_line;
mod importing;
mod input;
mod line;
mod lines;
mod seen_look;
mod split;
mod status;
mod stop;
mod told;
mod trials;
mod turn;
mod written;
