ghost use Rattle.std.specs.Prelude.{◌≡◌, ◌<◌, ◌==◌, ◌&&◌, [], Some, bytes_eq, get_or, length};
ghost use Rattle.std.specs.Prelude.{map, true};
ghost use Rattle.an_base.specs.TextSet.{has_text};
ghost use Rattle.an_base.specs.Totals.{totals_of};
ghost use Rattle.an_model.specs.Bodies.{note_terms};
ghost use Rattle.an_slots.specs.Rows.{is_posted, parts_of};
ghost use Rattle.an_slots.specs.Slot.{slot_of};
ghost use Rattle.an_listed.specs.Keys.{keyed, keys_by};
ghost use Rattle.an_listed.specs.declared.kind.Kind.TheVariants as kind;

use crate::filed::Filed;
use crate::kind::Kind;
use an_base::TermList;
use an_state::LiveNote;
use std::marker::Model;

/// What a row is found by in lists: what stands for its manifest, its class, and terms, each with
/// how often it occurs.
#[derive(Drop)]
pub(crate) struct Keys<'a> {
    manifest: &'a str,
    class: usize,
    /// None: the empty term alone.
    terms: Option<&'a TermList>,
}

impl<'a> Model for Keys<'a> {
    ghost use Rattle.std.specs.Prelude.{◌∷◌, [], unwrap_or};
    ghost use Rattle.std.specs.Option.{option_copied};
    ghost use Rattle.an_slots.specs.Rows.{Row};
    ghost use Rattle.an_listed.specs.Keys.{empty_term};

    ghost Value = { Row };

    ghost view = { λ k. record {
      manifest = k.manifest.now;
      class = k.class;
      terms = unwrap_or (option_copied k.terms) (empty_term ∷ []);
    } };
}

impl<'a> Keys<'a> {
    pub(crate) fn manifest(&self) -> &str
        ensures manifest { result.now ≡ self.now.manifest }
    {
        self.manifest
    }

    pub(crate) fn class(&self) -> usize
        ensures class { result ≡ self.now.class }
    {
        self.class
    }

    /// How many terms there are.
    pub(crate) fn len(&self) -> usize
        ensures length { result ≡ length self.now.terms }
    {
        match self.terms {
            Some(terms) => terms.len(),
            None => 1,
        }
    }

    /// The term at this place, from 0.
    pub(crate) fn term(&self, at: usize) -> &str
        requires within { at < length self.now.terms }
        ensures term { result.now ≡ get_or (map (λ e. e.term) self.now.terms) at [] }
    {
        match self.terms {
            Some(terms) => terms.term(at),
            None => "",
        }
    }

    /// How often the term at this place occurs.
    pub(crate) fn total(&self, at: usize) -> u64
        requires within { at < length self.now.terms }
        ensures total { result ≡ get_or (map (λ e. e.total) self.now.terms) at 0 }
    {
        match self.terms {
            Some(terms) => terms.total(at),
            None => 0,
        }
    }

    fn has(&self, term: &str) -> bool
        ensures { result ≡ has_text term.now (map (λ e. e.term) self.now.terms) }
    {
        match self.terms {
            Some(terms) => terms.has(term),
            None => term.is_empty(),
        }
    }

    /// Whether these are found there.
    pub(crate) fn are_at(&self, manifest: &str, class: usize, term: &str) -> bool
        ensures at { result
            ≡ is_posted (slot_of manifest.now term.now class) (parts_of self.now) }
    {
        self.are_under(manifest, class) && self.has(term)
    }

    fn are_under(&self, manifest: &str, class: usize) -> bool
        ensures { result ≡ (class == self.now.class && bytes_eq manifest.now self.now.manifest) }
    {
        class == self.class && manifest == self.manifest
    }
}

/// What a row is found by in lists of this kind.
pub(crate) fn keys_by(kind: Kind, row: &Filed) -> Option<Keys<'_>>
    ensures keys { result ≡ keys_by kind row.now }
{
    match row.note.get().live() {
        Some(live) => Some(keys_of(kind, live, row.class)),
        None => None,
    }
}

fn keys_of<'a>(kind: Kind, live: LiveNote<'a>, class: usize) -> Keys<'a>
    ensures { result ≡ keyed kind (record {
      manifest = live.entry.manifest.now;
      class = class;
      terms = totals_of (note_terms live.entry.tree.now);
    }) }
{
    match kind {
        Kind::Words => Keys {
            manifest: live.manifest.as_str(),
            class,
            terms: Some(live.tree.terms()),
        },
        Kind::Anywhere => Keys {
            manifest: "",
            class,
            terms: Some(live.tree.terms()),
        },
        Kind::Whole => Keys {
            manifest: live.manifest.as_str(),
            class,
            terms: None,
        },
    }
}

/// Whether the new row is found where the old one is, by the same terms and each as often, so that
/// nothing changes that is listed or counted.
pub(crate) fn is_alike(old: &Filed, new: &Filed) -> bool
    ensures alike { result ≡ true → keys_by kind.Words new.now ≡ keys_by kind.Words old.now }
{
    match keys_by(Kind::Words, old) {
        Some(keys) => is_found(&keys, new),
        None => false,
    }
}

/// Whether a row is found by these.
fn is_found(keys: &Keys<'_>, row: &Filed) -> bool
    ensures { result ≡ true → keys_by kind.Words row.now ≡ Some keys.now }
{
    match keys_by(Kind::Words, row) {
        Some(own) => are_same(&own, keys),
        None => false,
    }
}

fn are_same(own: &Keys<'_>, keys: &Keys<'_>) -> bool
    ensures { result ≡ true → own.now ≡ keys.now }
{
    own.class == keys.class && own.manifest == keys.manifest && have_same_terms(own, keys)
}

/// Whether both have the same terms, each as often.
fn have_same_terms(own: &Keys<'_>, keys: &Keys<'_>) -> bool
    ensures { result ≡ true → own.now.terms ≡ keys.now.terms }
{
    if own.len() != keys.len() {
        return false;
    }
    for at in 0..keys.len() {
        if own.term(at) != keys.term(at) || own.total(at) != keys.total(at) {
            return false;
        }
    }
    true
}
