use crate::anchor_calls::anchors;
use crate::harvest_calls::{harvest_pages, harvest_replies};
use crate::http_calls::{memory_reply, requests};
use crate::index_calls::{classes, counts, postings};
use crate::model_calls::{note, parts, sheet};
use crate::policy_calls::{may_read, settings};
use crate::row_calls::row;
use crate::rows::{Answers, RowError};
use crate::selector_calls::{places_of, quote, region, selector};
use crate::text_calls::{decimal, moment, name, plain, words};
use crate::tree_calls::tree;
use an_rows::Format;
use std::alloc::Global;

/// A call of a crate below the server's, which is made for each row of a case.
#[derive(Clone, Copy)]
pub enum Call {
    /// The name that a text is.
    Name,
    /// The seconds of a moment, and its text again.
    Moment,
    /// The decimal number up to a greatest one.
    Decimal,
    /// The words of a text, each with its span.
    Words,
    /// The plain text of an HTML text.
    Plain,
    /// The text of the tree that a JSON text is.
    Tree,
    /// The selector that a tree is.
    Selector,
    /// The region that a fragment names.
    Region,
    /// The places of a selector in a text.
    Places,
    /// The quote of a span.
    Quote,
    /// Where selectors hold in texts.
    Anchors,
    /// What is kept of an annotation.
    Note,
    /// What an annotation says.
    Parts,
    /// The canvases of a manifest.
    Sheet,
    /// Whether a caller may read what has an audience.
    May,
    /// The classes of audiences.
    Classes,
    /// What lists of places tell.
    Postings,
    /// What counts of terms tell.
    Counts,
    /// The settings that two words are.
    Site,
    /// The row that bytes are.
    Row,
    /// The row that bytes of the first format are, as it is written today.
    FormerRow,
    /// What is harvested of pages.
    HarvestPages,
    /// What is harvested of the bytes of replies.
    HarvestReplies,
    /// The requests that an input begins with, and what ends them.
    Requests,
    /// The reply for want of memory.
    MemoryReply,
}

/// The call of this name.
pub fn call_named(name: &str) -> Option<Call> {
    Some(match name {
        "name" => Call::Name,
        "moment" => Call::Moment,
        "decimal" => Call::Decimal,
        "words" => Call::Words,
        "plain" => Call::Plain,
        "tree" => Call::Tree,
        "selector" => Call::Selector,
        "region" => Call::Region,
        "places" => Call::Places,
        "quote" => Call::Quote,
        "anchors" => Call::Anchors,
        "note" => Call::Note,
        "parts" => Call::Parts,
        "sheet" => Call::Sheet,
        "may" => Call::May,
        "classes" => Call::Classes,
        "postings" => Call::Postings,
        "counts" => Call::Counts,
        "settings" => Call::Site,
        "row" => Call::Row,
        "former_row" => Call::FormerRow,
        "harvest_pages" => Call::HarvestPages,
        "harvest_replies" => Call::HarvestReplies,
        "requests" => Call::Requests,
        "memory_reply" => Call::MemoryReply,
        _ => return None,
    })
}

impl Answers for Call {
    fn answer(&mut self, alloc: Global, argument: &str) -> Result<String, RowError> {
        match self {
            Call::Name => Ok(name(alloc, argument)?),
            Call::Moment => Ok(moment(alloc, argument)?),
            Call::Decimal => decimal(alloc, argument),
            Call::Words => Ok(words(alloc, argument)?),
            Call::Plain => Ok(plain(alloc, argument)?),
            Call::Tree => Ok(tree(alloc, argument)?),
            Call::Selector => selector(alloc, argument),
            Call::Region => Ok(region(alloc, argument)?),
            Call::Places => places_of(alloc, argument),
            Call::Quote => quote(alloc, argument),
            Call::Anchors => anchors(alloc, argument),
            Call::Note => note(alloc, argument),
            Call::Parts => parts(alloc, argument),
            Call::Sheet => sheet(alloc, argument),
            Call::May => may_read(alloc, argument),
            Call::Classes => classes(alloc, argument),
            Call::Postings => postings(alloc, argument),
            Call::Counts => counts(alloc, argument),
            Call::Site => settings(alloc, argument),
            Call::Row => row(alloc, Format::Second, argument),
            Call::FormerRow => row(alloc, Format::First, argument),
            Call::HarvestPages => harvest_pages(alloc, argument),
            Call::HarvestReplies => harvest_replies(alloc, argument),
            Call::Requests => requests(alloc, argument),
            Call::MemoryReply => memory_reply(alloc),
        }
    }
}
