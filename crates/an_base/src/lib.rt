//! What every crate of the annotation server speaks of: texts, lists, names, moments and trees.
//! Contracts see a `Text`, a `List` or a `Name` as the list of what it holds, so two of them are
//! equal where their content is.
//!
//! ```text
//! moment_of("2026-05-01T10:00:00Z")  Ok(moment), and moment_text of it is that text again
//! moment_of("2026-02-30T10:00:00Z")  Err(MomentError::Range)
//! ```
#![tactic(auto)]

pub use bytes::Bytes;
pub use chars::char_count;
pub use copy::{TryCopy, copy_both};
pub use decimal::read_decimal;
pub use front::after_front;
pub use kept::KeptTree;
pub use list::List;
pub use member::{has_item, has_type, member_count, text_in, trees_in};
pub use moment::{
    Moment, MomentError, moment_of, moment_text, moment_texts_are_ascii, moment_texts_are_unique,
    moments_are_told, moments_read_back,
};
pub use name::{Name, NameError, is_name, name_in};
pub use object::{with_member, without_member};
pub use shared::Shared;
pub use span::{Prefer, Span, TermTotal};
pub use steps::Steps;
pub use term_list::TermList;
pub use text::Text;
pub use text_set::{TextSet, to_u32};
pub use token::is_token;
pub use totals::TermTotals;
pub use tree::{
    Tree, TreeError, equal_texts_are_equal_trees, one_or_many, read_tree, tree_text,
    trees_read_back,
};
pub use value::{is_tree, read_value, values_read_back};
pub use write::{
    close_items, close_members, push_array_member, push_comma, push_members, push_members_above,
    push_name, push_number, push_number_member, push_text, push_text_member, push_value,
    push_value_member,
};

mod bytes;
mod chars;
mod copy;
mod decimal;
mod front;
mod kept;
mod list;
mod member;
mod moment;
mod name;
mod object;
mod shared;
mod span;
mod steps;
mod term_list;
mod text;
mod text_set;
mod token;
mod totals;
mod tree;
mod value;
mod write;
