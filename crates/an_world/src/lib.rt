//! What the server meets outside: links that give bytes and take bytes, two kinds of link that
//! stand in memory, and clocks.
//!
//! ```text
//! read_on(&mut link, &mut room, &mut held)
//!     Ok(5)                  five bytes came, and they stand at the end of `held`
//!     Ok(0)                  the input has ended
//!     Err(LinkError::ReadFault)   the read failed, the link has counted it, `held` is as it was
//! ```
#![tactic(auto)]

pub use clock::{Clock, SetClock};
pub use link::{Link, LinkFault};
pub use memory::MemLink;
pub use read::{LinkError, read_on, read_to};
pub use sure::SureLink;
pub use write::write_all;

mod calls;
mod clock;
mod input;
mod link;
mod memory;
mod read;
mod sure;
mod write;
mod written;
