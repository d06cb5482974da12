ghost use Rattle.std.specs.Prelude.{◌≡◌, IfOk, OnErr, OnOk, drop, filter, length, take};
ghost use Rattle.std.specs.Option.{option_copied};
ghost use Rattle.an_policy.specs.Audience.{identity};
ghost use Rattle.an_slots.specs.Places.{Rises, has};
ghost use Rattle.an_state.specs.Terms.{places_with_term, terms_with_prefix};
ghost use Rattle.an_state.specs.View.{seen_by, sought_places};
ghost use Rattle.an_snapshot.specs.Absorbed.{absorbed, nothing};

use crate::absorb::{absorb, take_room};
use crate::changes::Changes;
use crate::copying::{copy_book, copy_changes, copy_classes};
use crate::seen::{count_seen, slice_seen};
use an_base::{Name, TermTotal, TryCopy};
use an_listed::Listed;
use an_policy::{Classes, Who};
use an_state::{Book, Entry, Seen};
use std::alloc::{AllocError, Global};
use std::marker::Model;

/// A state that is answered from lists. Contracts see the state, and how many entries were applied.
#[derive(Drop)]
pub struct Snapshot {
    alloc: Global,
    book: Book,
    classes: Classes,
    listed: Listed,
    changes: Changes,
    count: u128,
}

impl Model for Snapshot {
    ghost use Rattle.std.specs.Coded.{codes};
    ghost use Rattle.an_base.specs.TreeCode.{tree_code};
    ghost use Rattle.an_snapshot.specs.Absorbed.{Absorbed};
    ghost use Rattle.an_snapshot.specs.Changes.{AreChanges};
    ghost use Rattle.an_snapshot.specs.Listing.{IsListing};

    ghost Value = { Absorbed };

    ghost coded = { Prim.hlevel (codes, tree_code) };

    ghost view = { λ s. record { state = s.book.state; count = s.count } };

    ghost invariant = { λ s. record {
      listing : IsListing s.book.state s.classes s.listed.rows;
      changes : AreChanges s.book.state s.classes s.changes;
    } };
}

impl Snapshot {
    /// The empty state, to which nothing was applied. It takes no memory.
    pub fn new(alloc: Global) -> Snapshot
        ensures empty { result ≡ nothing }
    {
        Snapshot {
            alloc,
            book: Book::new(alloc),
            classes: Classes::new(alloc),
            listed: Listed::new(alloc),
            changes: Changes::new(alloc),
            count: 0,
        }
    }

    /// How many entries were applied, those that didn't fit with them. It takes no memory.
    pub fn count(&self) -> u128
        ensures count { result ≡ self.now.count }
    {
        self.count
    }

    /// Takes the memory that the entry needs. Nothing changes, also where memory runs out.
    pub fn room(&mut self, entry: &Entry) -> Result<(), AllocError>
        ensures same { self.new ≡ self.old }
    {
        take_room(
            self.alloc,
            &mut self.book,
            &mut self.classes,
            &mut self.listed,
            &mut self.changes,
            entry,
        )
    }

    /// Applies an entry. One that doesn't fit leaves the state as it is, and is counted. Its only
    /// error is out of memory, and then nothing changes.
    #[tactic(auto, unfolding(crate::specs::Absorbed::counted))]
    pub fn apply(&mut self, entry: &Entry) -> Result<(), AllocError>
        ensures ok { OnOk result (self.new ≡ absorbed self.old entry.now) }
        ensures same { OnErr result (self.new ≡ self.old) }
    {
        absorb(
            self.alloc,
            &mut self.book,
            &mut self.classes,
            &mut self.listed,
            &mut self.changes,
            entry,
        )?;
        self.count = self.count.saturating_add(1);
        Ok(())
    }

    /// Its state, as writes are decided over it. It takes no memory.
    pub fn book(&self) -> &Book
        ensures state { result.now.state ≡ self.now.state }
    {
        &self.book
    }

    /// The places of the live annotations that the caller may read, on a manifest, or where none is
    /// named on any.
    pub(crate) fn places(
        &self,
        alloc: Global,
        who: &Who<'_>,
        manifest: Option<&Name>,
    ) -> Result<Vec<usize>, AllocError>
        ensures places { IfOk result (λ places. places.items
            ≡ sought_places self.now.state (identity who.now) (option_copied manifest.entry)) }
    {
        self.listed.readable(alloc, &self.classes, who, manifest)
    }

    /// The places of those of them that have a term.
    pub(crate) fn places_with(
        &self,
        alloc: Global,
        who: &Who<'_>,
        manifest: Option<&Name>,
        term: &str,
    ) -> Result<Vec<usize>, AllocError>
        ensures places { IfOk result (λ places. places.items ≡ places_with_term self.now.state
            (identity who.now) (option_copied manifest.entry) term.now) }
    {
        self.listed
            .with_term(alloc, &self.classes, who, manifest, term)
    }

    /// How many places the lists of a term have, on a manifest, or where none is named on all,
    /// whoever may read them.
    pub(crate) fn weight_of(&self, manifest: Option<&Name>, term: &str) -> usize {
        self.listed.term_weight(manifest, term)
    }

    /// Those of these places at which an annotation has a term, and the caller may read it.
    pub(crate) fn places_among(
        &self,
        alloc: Global,
        who: &Who<'_>,
        manifest: Option<&Name>,
        term: &str,
        places: &[usize],
    ) -> Result<Vec<usize>, AllocError>
        requires rise { Rises 0 places.now }
        ensures having { IfOk result (λ having. having.items ≡ filter (λ place. has place
            (places_with_term self.now.state (identity who.now) (option_copied manifest.entry)
            term.now)) places.now) }
    {
        self.listed
            .among_with_term(alloc, &self.classes, who, manifest, term, places)
    }

    /// Their terms that begin so, and how often each occurs.
    pub(crate) fn terms(
        &self,
        alloc: Global,
        who: &Who<'_>,
        manifest: Option<&Name>,
        prefix: &str,
    ) -> Result<Vec<TermTotal>, AllocError>
        ensures terms { IfOk result (λ terms. terms.items ≡ terms_with_prefix self.now.state
            (identity who.now) (option_copied manifest.entry) prefix.now) }
    {
        self.listed
            .terms_from(alloc, &self.classes, who, manifest, prefix)
    }

    /// How many changes the caller sees.
    pub(crate) fn changes_seen(&self, who: &Who<'_>) -> usize
        ensures count { result
            ≡ length (seen_by (identity who.now) self.now.state.activities) }
    {
        count_seen(&self.classes, &self.changes, who)
    }

    /// Those of them from `start` on, and at most `count`.
    pub(crate) fn changes_from(
        &self,
        alloc: Global,
        who: &Who<'_>,
        start: usize,
        count: usize,
    ) -> Result<Vec<Seen>, AllocError>
        ensures seen { IfOk result (λ seen. seen.items
            ≡ take count (drop start (seen_by (identity who.now) self.now.state.activities))) }
    {
        slice_seen(alloc, &self.classes, &self.changes, who, start, count)
    }
}

impl TryCopy for Snapshot {
    /// An equal snapshot, which shares the rows. Lists are copied as they stand, and no word is
    /// looked up again.
    fn copy(&self) -> Result<Snapshot, AllocError> {
        let mut classes = copy_classes(self.alloc, &self.classes)?;
        let changes = copy_changes(self.alloc, &mut classes, self.book.activities())?;
        let listed = self.listed.copy()?;
        let book = copy_book(self.alloc, &self.book)?;
        Ok(Snapshot {
            alloc: self.alloc,
            book,
            classes,
            listed,
            changes,
            count: self.count,
        })
    }
}
