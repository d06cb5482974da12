ghost use Rattle.std.specs.Prelude.{◌≡◌, ◌∷◌, ◌&&◌, ◌≤◌, [], IfOk, List, OnOk, filter, length, map};
ghost use Rattle.std.specs.Option.{option_copied};
ghost use Rattle.an_policy.specs.Audience.{identity};
ghost use Rattle.an_state.specs.Terms.{has_term, totals_in};
ghost use Rattle.an_slots.specs.Places.{Rises, has, places_from};
ghost use Rattle.an_state.specs.View.{is_on};
ghost use Rattle.an_listed.specs.Filed.{put_at, reads_within};
ghost use Rattle.an_listed.specs.Room.{HasRoom};

use crate::asks::readable_anywhere;
use crate::filed::Filed;
use crate::leaner::{let_go_all, put_over};
use crate::register::Register;
use an_base::{Name, TermTotal, TryCopy};
use an_policy::{Classes, Who};
use std::alloc::{AllocError, Global};
use std::marker::Model;
use std::mem::replace;

/// So many rows can be listed, since a list keeps each place in 32 bits.
const MOST_ROWS: usize = 4_294_967_296;

/// Rows beside the lists by which they are found: for each manifest, term and class of audience the
/// places of the live annotations, and how often the term occurs there; the same for each term and
/// class, whatever the manifest; and for each manifest and class, whatever the terms. Contracts see
/// the rows, the lists, and for how many rows more there is memory.
#[derive(Drop)]
pub struct Listed {
    rows: Vec<Filed>,
    register: Register,
    room: usize,
    /// Rows that others were put over, whose lists may have no place any more.
    gone: Vec<Filed>,
}

impl Model for Listed {
    ghost use Rattle.std.specs.Prelude.{◌+◌, ◌≤◌, vec_capacity, vec_len};
    ghost use Rattle.std.specs.Coded.{codes};
    ghost use Rattle.an_base.specs.TreeCode.{tree_code};
    ghost use Rattle.an_listed.specs.Stands.{Listings, Stands};

    ghost Value = { Listings };

    ghost coded = { Prim.hlevel (codes, tree_code) };

    ghost view = { λ l. record {
      rows = l.rows.items;
      register = l.register;
      room = l.room;
    } };

    ghost invariant = { λ l. record {
      stands : Stands l.register l.rows.items;
      behind : vec_len l.rows + l.room ≤ vec_capacity l.rows;
      over : vec_len l.gone + l.room ≤ vec_capacity l.gone;
    } };
}

impl Listed {
    /// No rows, and room for none. It takes no memory.
    pub fn new(alloc: Global) -> Listed
        ensures empty { result.rows ≡ [] }
    {
        Listed {
            rows: Vec::new(alloc),
            register: Register::new(alloc),
            room: 0,
            gone: Vec::new(alloc),
        }
    }

    /// A copy, which shares the annotations and has room for no more rows: lists are copied as they
    /// stand, which takes a small part of the time in which the rows are put. Its only error is out
    /// of memory.
    pub fn copy(&self) -> Result<Listed, AllocError>
        ensures rows { IfOk result (λ copy. copy.rows ≡ self.now.rows) }
    {
        let alloc = *self.rows.allocator();
        let rows = copied(alloc, self.rows.as_slice())?;
        Ok(Listed {
            rows,
            register: self.register.copy()?,
            room: 0,
            gone: Vec::new(alloc),
        })
    }

    /// The rows by their places.
    pub fn rows(&self) -> &[Filed]
        ensures rows { result.now ≡ self.now.rows }
    {
        self.rows.as_slice()
    }

    /// Takes the memory that these rows need, in whatever order and at whatever places they are
    /// put. Its only error is out of memory, which more than 2^32 rows are answered with too.
    pub fn room(&mut self, rows: &[Filed]) -> Result<(), AllocError>
        ensures ok { OnOk result (HasRoom rows.now self.new) }
        ensures rows { self.new.rows ≡ self.old.rows }
        ensures kept { (coming : List Filed) → HasRoom coming self.old → HasRoom coming self.new }
    {
        if MOST_ROWS - self.rows.len() < rows.len() {
            return Err(AllocError);
        }
        self.make_room(rows.len())?;
        let alloc = *self.rows.allocator();
        self.register.room(alloc, rows)
    }

    /// Takes the memory for so many rows more, but for that of their lists.
    fn make_room(&mut self, more: usize) -> Result<(), AllocError>
        ensures ok { OnOk result (more ≤ self.new.room) }
        ensures rows { self.new.rows ≡ self.old.rows }
        ensures register { self.new.register ≡ self.old.register }
        ensures room { self.old.room ≤ self.new.room }
    {
        if self.room < more {
            self.rows.reserve(more)?;
            self.gone.reserve(more)?;
            self.room = more;
        }
        Ok(())
    }

    /// Puts a row at a place: in place of the row there, or after all. It takes no memory.
    pub fn put(&mut self, place: usize, row: Filed)
        requires place { place ≤ length self.old.rows }
        requires room { HasRoom (row ∷ []) self.old }
        ensures rows { self.new.rows ≡ put_at place row self.old.rows }
        ensures rest { (coming : List Filed)
            → HasRoom (row ∷ coming) self.old → HasRoom coming self.new }
    {
        self.room -= 1;
        if place < self.rows.len() {
            let more = self.room > 0;
            let done = self
                .register
                .replace(self.rows.as_slice(), place, &row, more);
            put_over(&mut self.rows, &mut self.gone, place, row, done);
        } else {
            self.register.push(self.rows.as_slice(), &row);
            self.rows.push_reserved(row);
        }
    }

    /// Gives back the memory of what the rows were found by that others were put over since the
    /// last call, where nothing is found by it any more. There is room for no row then. It takes no
    /// memory.
    pub fn let_go(&mut self)
        ensures rows { self.new.rows ≡ self.old.rows }
    {
        self.room = 0;
        let alloc = *self.rows.allocator();
        let gone = replace(&mut self.gone, Vec::new(alloc));
        let_go_all(&mut self.register, gone.as_slice());
    }

    /// The places of the live annotations on a manifest, ascending.
    pub fn on_manifest(&self, alloc: Global, manifest: &Name) -> Result<Vec<usize>, AllocError>
        ensures places { IfOk result (λ places. places.items
            ≡ places_from (λ row. is_on manifest.now row.note) 0 self.now.rows) }
    {
        self.register.on_manifest(alloc, manifest)
    }

    /// The places of the live annotations that the caller may read, ascending: on a manifest, or
    /// where none is named on any. In this case all rows are looked at.
    pub fn readable(
        &self,
        alloc: Global,
        classes: &Classes,
        who: &Who<'_>,
        manifest: Option<&Name>,
    ) -> Result<Vec<usize>, AllocError>
        ensures places { IfOk result (λ places. places.items ≡ places_from
            (reads_within (identity who.now) classes.now (option_copied manifest.entry)) 0
            self.now.rows) }
    {
        match manifest {
            Some(name) => self.register.readable_on(alloc, classes, who, name),
            None => readable_anywhere(alloc, self.rows.as_slice(), classes, who),
        }
    }

    /// The places of those that have a term, ascending.
    pub fn with_term(
        &self,
        alloc: Global,
        classes: &Classes,
        who: &Who<'_>,
        manifest: Option<&Name>,
        term: &str,
    ) -> Result<Vec<usize>, AllocError>
        ensures places { IfOk result (λ places. places.items
            ≡ places_from (λ row. reads_within (identity who.now) classes.now
            (option_copied manifest.entry) row && has_term term.now row.note) 0 self.now.rows) }
    {
        self.register.with_term(alloc, classes, who, manifest, term)
    }

    /// How many places the lists of a term have together, on a manifest, or where none is named on
    /// all, whoever may read them. Nothing is promised of it: it is for choosing which list is
    /// walked first.
    pub fn term_weight(&self, manifest: Option<&Name>, term: &str) -> usize {
        self.register.term_weight(manifest, term)
    }

    /// Those of the places, which ascend, at which there is an annotation that `with_term` finds.
    /// Where the lists of the term are much longer than the places, each place is looked up in the
    /// list of its class; else the lists are walked along once.
    pub fn among_with_term(
        &self,
        alloc: Global,
        classes: &Classes,
        who: &Who<'_>,
        manifest: Option<&Name>,
        term: &str,
        places: &[usize],
    ) -> Result<Vec<usize>, AllocError>
        requires rise { Rises 0 places.now }
        ensures having { IfOk result (λ having. having.items ≡ filter (λ place. has place
            (places_from (λ row. reads_within (identity who.now) classes.now
            (option_copied manifest.entry) row && has_term term.now row.note) 0
            self.now.rows)) places.now) }
    {
        let rows = self.rows.as_slice();
        self.register
            .among_with_term(alloc, rows, classes, who, manifest, term, places)
    }

    /// The terms that begin with a prefix, ascending by their bytes, and how often each occurs in
    /// the annotations that `readable` finds.
    pub fn terms_from(
        &self,
        alloc: Global,
        classes: &Classes,
        who: &Who<'_>,
        manifest: Option<&Name>,
        prefix: &str,
    ) -> Result<Vec<TermTotal>, AllocError>
        ensures terms { IfOk result (λ terms. terms.items
            ≡ totals_in prefix.now (map (λ row. row.note)
            (filter (reads_within (identity who.now) classes.now (option_copied manifest.entry))
            self.now.rows))) }
    {
        self.register
            .terms_from(alloc, classes, who, manifest, prefix)
    }
}

fn copied(alloc: Global, rows: &[Filed]) -> Result<Vec<Filed>, AllocError>
    ensures { IfOk result (λ copies. copies.items ≡ rows.now) }
{
    let mut copies = Vec::with_capacity(alloc, rows.len())?;
    for row in rows {
        copies.push(row.copy()?)?;
    }
    Ok(copies)
}
