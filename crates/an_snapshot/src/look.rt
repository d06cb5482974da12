use crate::snapshot::Snapshot;
use an_base::{Name, Steps, TermTotal};
use an_policy::{Caller, Kind, Who};
use an_state::{Look, ManifestRow, NoteRow, Seen};
use std::alloc::{AllocError, Global};
use std::sync::ledger::Ledger;

impl Look for Snapshot {
    ghost state = { λ s. s.state };

    fn who(&self, caller: &Caller) -> Option<Who<'_>> {
        self.book().who(caller)
    }

    fn manifest(&self, name: &Name) -> Option<&ManifestRow> {
        self.book().manifest(name)
    }

    fn note(&self, owner: &Name, name: &Name) -> Option<&NoteRow> {
        self.book().note(owner, name)
    }

    fn note_at<L: Ledger>(&self, place: usize, steps: &mut Steps<L>) -> Option<&NoteRow> {
        self.book().note_at(place, steps)
    }

    fn readable(
        &self,
        alloc: Global,
        who: &Who<'_>,
        manifest: Option<&Name>,
    ) -> Result<Vec<usize>, AllocError> {
        self.places(alloc, who, manifest)
    }

    fn with_term(
        &self,
        alloc: Global,
        who: &Who<'_>,
        manifest: Option<&Name>,
        term: &str,
    ) -> Result<Vec<usize>, AllocError> {
        self.places_with(alloc, who, manifest, term)
    }

    fn term_weight(&self, _who: &Who<'_>, manifest: Option<&Name>, term: &str) -> usize {
        self.weight_of(manifest, term)
    }

    fn among_with_term(
        &self,
        alloc: Global,
        who: &Who<'_>,
        manifest: Option<&Name>,
        term: &str,
        places: &[usize],
    ) -> Result<Vec<usize>, AllocError> {
        self.places_among(alloc, who, manifest, term, places)
    }

    fn terms_from(
        &self,
        alloc: Global,
        who: &Who<'_>,
        manifest: Option<&Name>,
        prefix: &str,
    ) -> Result<Vec<TermTotal>, AllocError> {
        self.terms(alloc, who, manifest, prefix)
    }

    fn manifest_at(&self, place: usize) -> Option<&ManifestRow> {
        self.book().manifest_at(place)
    }

    fn seen_count(&self, who: &Who<'_>) -> usize {
        self.changes_seen(who)
    }

    fn seen_slice(
        &self,
        alloc: Global,
        who: &Who<'_>,
        start: usize,
        count: usize,
    ) -> Result<Vec<Seen>, AllocError> {
        self.changes_from(alloc, who, start, count)
    }

    fn last_change(&self, who: &Who<'_>, owner: Option<&Name>, name: &Name) -> Option<Kind> {
        self.book().last_change(who, owner, name)
    }
}
