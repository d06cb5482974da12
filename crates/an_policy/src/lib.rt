//! Who may read what: groups, audiences and their classes, readers, and how callers are known.
//!
//! ```text
//! may(&who, &audience)   true where `who` is in the outer group and is the owner or in the inner
//! as_seen(&who, Some(&before), Some(&after))   Some(Kind::Delete) where `who` could read what was
//!                                              there before, and can't read what is there after
//! ```
#![tactic(auto)]

pub use classes::Classes;
pub use former::one_group_stays;
pub use group::{Audience, Group, group_named, group_text, groups_read_back, is_same_group};
pub use inner::{
    Inner, inner_groups_read_back, inner_named, inner_of, inner_text, inner_texts, is_same_inner,
    one_group, typed_inner,
};
pub use kind::{Kind, as_seen};
pub use names::Names;
pub use permission::{
    deciding_owner, is_member, is_named, may, may_read, owners_add_nobody_to_everybody,
};
pub use reader::{Reader, ReaderError, Role, is_user, read_reader, user_of};
pub use who::{Caller, Who};

mod audience;
mod classes;
mod former;
mod group;
mod inner;
mod kind;
mod names;
mod permission;
mod reader;
mod who;
