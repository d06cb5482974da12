//! What the definitions of the small machine promise in every history. Each law is the contract of
//! a function that does nothing.
//!
//! ```text
//! numbers_rise()        ensures that of two accepted writes of one object the later has the higher
//!                       number
//! histories_are_kept()  ensures that the cells of a state stand for it, whatever led to it
//! ```
#![tactic(auto)]

pub use coherence::{states_stay_coherent, views_are_told};
pub use isolation::{own_writes_depend_on_the_view, unseen_writes_change_no_view};
pub use kept::writes_are_kept;
pub use numbers::{numbers_rise, sent_again_adds_nothing};
pub use settled::accepted_writes_are_settled;
pub use soundness::states_stay_sound;
pub use validity::{histories_are_kept, states_stay_valid};

mod coherence;
mod isolation;
mod kept;
mod numbers;
mod settled;
mod soundness;
mod validity;
