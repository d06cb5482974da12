//! Rows on how many rows of annotations are fetched for an answer.
use crate::policy_calls::caller_named;
use crate::rows::{RowError, two_words};
use crate::shown::written;
use an_answers::answer_uncounted;
use an_base::{Name, Prefer, Steps, TermTotal};
use an_http::Method;
use an_list::read_site;
use an_policy::{Caller, Kind, Who};
use an_routes::{Read, Route, route};
use an_snapshot::Snapshot;
use an_state::{Look, ManifestRow, NoteRow, Seen};
use std::alloc::{AllocError, Global};
use std::cell::Cell;
use std::sync::ledger::Ledger;

/// How many rows of annotations are fetched for an answer, with so many items on a page:
/// `2 - /search/m1?q=heron`.
pub fn steps(alloc: Global, listed: &Snapshot, argument: &str) -> Result<String, RowError> {
    let (size, rest) = two_words(argument)?;
    let (by, target) = two_words(rest)?;
    let caller = caller_named(alloc, by, Caller::Anonymous)?;
    let read = read_in(alloc, target)?;
    fetched(alloc, listed, size, &caller, &read)
}

fn read_in(alloc: Global, target: &str) -> Result<Read, RowError> {
    match route(alloc, Some(Method::Get), target) {
        Ok(Route::Read(read)) => Ok(read),
        _ => Err(RowError::Form),
    }
}

fn fetched(
    alloc: Global,
    listed: &Snapshot,
    size: &str,
    caller: &Caller,
    read: &Read,
) -> Result<String, RowError> {
    let settings = read_site(alloc, "http://a.example", size).map_err(|_| RowError::Form)?;
    let prefer = Prefer {
        minimal: false,
        iris: false,
    };
    let counted = Counted::new(listed);
    answer_uncounted(alloc, &counted, &settings, caller, prefer, read)?;
    Ok(written(alloc, &counted.fetched.get())?)
}

/// A look at a snapshot that counts how many rows of annotations are fetched, each in one step.
#[derive(Drop)]
struct Counted<'a> {
    listed: &'a Snapshot,
    fetched: Cell<u64>,
}

impl<'a> Counted<'a> {
    /// Nothing is fetched yet.
    fn new(listed: &'a Snapshot) -> Counted<'a> {
        Counted {
            listed,
            fetched: Cell::new(0),
        }
    }
}

impl Look for Counted<'_> {
    ghost state = { λ c. c.listed.now.state };

    fn who(&self, caller: &Caller) -> Option<Who<'_>> {
        self.listed.who(caller)
    }

    fn manifest(&self, name: &Name) -> Option<&ManifestRow> {
        self.listed.manifest(name)
    }

    fn note(&self, owner: &Name, name: &Name) -> Option<&NoteRow> {
        self.listed.note(owner, name)
    }

    fn note_at<L: Ledger>(&self, place: usize, steps: &mut Steps<L>) -> Option<&NoteRow> {
        self.fetched.set(self.fetched.get().saturating_add(1));
        self.listed.note_at(place, steps)
    }

    fn readable(
        &self,
        alloc: Global,
        who: &Who<'_>,
        manifest: Option<&Name>,
    ) -> Result<Vec<usize>, AllocError> {
        self.listed.readable(alloc, who, manifest)
    }

    fn with_term(
        &self,
        alloc: Global,
        who: &Who<'_>,
        manifest: Option<&Name>,
        term: &str,
    ) -> Result<Vec<usize>, AllocError> {
        self.listed.with_term(alloc, who, manifest, term)
    }

    fn term_weight(&self, who: &Who<'_>, manifest: Option<&Name>, term: &str) -> usize {
        self.listed.term_weight(who, manifest, term)
    }

    fn among_with_term(
        &self,
        alloc: Global,
        who: &Who<'_>,
        manifest: Option<&Name>,
        term: &str,
        places: &[usize],
    ) -> Result<Vec<usize>, AllocError> {
        self.listed
            .among_with_term(alloc, who, manifest, term, places)
    }

    fn terms_from(
        &self,
        alloc: Global,
        who: &Who<'_>,
        manifest: Option<&Name>,
        prefix: &str,
    ) -> Result<Vec<TermTotal>, AllocError> {
        self.listed.terms_from(alloc, who, manifest, prefix)
    }

    fn manifest_at(&self, place: usize) -> Option<&ManifestRow> {
        self.listed.manifest_at(place)
    }

    fn seen_count(&self, who: &Who<'_>) -> usize {
        self.listed.seen_count(who)
    }

    fn seen_slice(
        &self,
        alloc: Global,
        who: &Who<'_>,
        start: usize,
        count: usize,
    ) -> Result<Vec<Seen>, AllocError> {
        self.listed.seen_slice(alloc, who, start, count)
    }

    fn last_change(&self, who: &Who<'_>, owner: Option<&Name>, name: &Name) -> Option<Kind> {
        self.listed.last_change(who, owner, name)
    }
}
