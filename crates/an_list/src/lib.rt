//! Lists that are served in pages: where the server stands, what a page has, and the annotations on
//! it with the words that are marked in them.
//!
//! ```text
//! read_site(alloc, "http://a.example", "10")   Ok(site): a page has at most ten items
//! Paging { page: 2, size: 10, total: 11 }      pages() is 2, start() is 10, and after() is None
//! highlight(alloc, marks, &note, source, &terms, page)   where there are four marks, the note's
//!     text is "A heron." and the terms are "heron": Ok of the marks and a fifth, which has the id
//!     page + "#match-5" and quotes "heron"
//! ```
#![tactic(auto)]

pub use error::ReadError;
pub use items::{PageItems, list_items};
pub use marked::{Marks, highlight};
pub use notes::{NoteList, page_of_notes};
pub use page::{
    PageForm, PagedList, Paging, page_iri, page_of, page_text, push_ignored, push_link_member,
    push_next, push_prev, push_text_item, push_thing_member,
};
pub use site::{Site, SiteError, read_site};

mod error;
mod items;
mod listed;
mod mark;
mod marked;
mod notes;
mod page;
mod site;
