//! A look that keeps the changes that one caller sees.
ghost use Rattle.std.specs.Prelude.{◌≡◌, IfOk, IsTrue, drop, take};
ghost use Rattle.an_policy.specs.Audience.{identity};
ghost use Rattle.an_state.specs.View.{seen_by};

use an_base::{Name, Steps, TermTotal, TryCopy, copy_both};
use an_policy::{Caller, Kind, Reader, Role, Who};
use an_state::{Look, ManifestRow, NoteRow, Object, Seen};
use std::alloc::{AllocError, Global};
use std::sync::ledger::Ledger;

/// A look that keeps the changes that one caller sees, so that no page of them is looked for from
/// the first change on. All else is the look's.
#[derive(Drop)]
pub(crate) struct SeenLook<'a, T: Look> {
    look: &'a T,
    who: Who<'a>,
    seen: Vec<Seen>,
    ghost kept: { seen.items ≡ seen_by (identity who) (T.state look.now).activities },
}

impl<'a, T: Look> SeenLook<'a, T> {
    /// The look, with the changes that this caller sees.
    pub(crate) fn new(
        alloc: Global,
        look: &'a T,
        who: Who<'a>,
    ) -> Result<SeenLook<'a, T>, AllocError>
        ensures { IfOk result (λ kept. T.state kept.look.now ≡ T.state look.now) }
    {
        let count = look.seen_count(&who);
        let seen = look.seen_slice(alloc, &who, 0, count)?;
        Ok(SeenLook { look, who, seen })
    }

    /// Whether the changes that are kept are this caller's.
    fn is_of(&self, who: &Who<'_>) -> bool
        ensures { IsTrue result → identity self.now.who ≡ identity who.now }
    {
        is_same_caller(&self.who, who)
    }
}

impl<'a, T: Look> Look for SeenLook<'a, T> {
    ghost state = { λ l. T.state l.look.now };

    fn who(&self, caller: &Caller) -> Option<Who<'_>> {
        self.look.who(caller)
    }

    fn manifest(&self, name: &Name) -> Option<&ManifestRow> {
        self.look.manifest(name)
    }

    fn note(&self, owner: &Name, name: &Name) -> Option<&NoteRow> {
        self.look.note(owner, name)
    }

    fn note_at<L: Ledger>(&self, place: usize, steps: &mut Steps<L>) -> Option<&NoteRow> {
        self.look.note_at(place, steps)
    }

    fn readable(
        &self,
        alloc: Global,
        who: &Who<'_>,
        manifest: Option<&Name>,
    ) -> Result<Vec<usize>, AllocError> {
        self.look.readable(alloc, who, manifest)
    }

    fn with_term(
        &self,
        alloc: Global,
        who: &Who<'_>,
        manifest: Option<&Name>,
        term: &str,
    ) -> Result<Vec<usize>, AllocError> {
        self.look.with_term(alloc, who, manifest, term)
    }

    fn term_weight(&self, who: &Who<'_>, manifest: Option<&Name>, term: &str) -> usize {
        self.look.term_weight(who, manifest, term)
    }

    fn among_with_term(
        &self,
        alloc: Global,
        who: &Who<'_>,
        manifest: Option<&Name>,
        term: &str,
        places: &[usize],
    ) -> Result<Vec<usize>, AllocError> {
        self.look
            .among_with_term(alloc, who, manifest, term, places)
    }

    fn terms_from(
        &self,
        alloc: Global,
        who: &Who<'_>,
        manifest: Option<&Name>,
        prefix: &str,
    ) -> Result<Vec<TermTotal>, AllocError> {
        self.look.terms_from(alloc, who, manifest, prefix)
    }

    fn manifest_at(&self, place: usize) -> Option<&ManifestRow> {
        self.look.manifest_at(place)
    }

    fn seen_count(&self, who: &Who<'_>) -> usize {
        if self.is_of(who) {
            self.seen.len()
        } else {
            self.look.seen_count(who)
        }
    }

    fn seen_slice(
        &self,
        alloc: Global,
        who: &Who<'_>,
        start: usize,
        count: usize,
    ) -> Result<Vec<Seen>, AllocError> {
        if self.is_of(who) {
            slice_of(alloc, self.seen.as_slice(), start, count)
        } else {
            self.look.seen_slice(alloc, who, start, count)
        }
    }

    fn last_change(&self, who: &Who<'_>, owner: Option<&Name>, name: &Name) -> Option<Kind> {
        self.look.last_change(who, owner, name)
    }
}

// ---- who a caller is

/// Whether both are one caller.
fn is_same_caller(one: &Who<'_>, other: &Who<'_>) -> bool
    ensures { IsTrue result → identity one.now ≡ identity other.now }
{
    match one {
        Who::Anonymous => matches!(other, Who::Anonymous),
        Who::Operator => matches!(other, Who::Operator),
        Who::Signed(one) => match other {
            Who::Anonymous => false,
            Who::Operator => false,
            Who::Signed(other) => is_same_reader(one, other),
        },
    }
}

/// Whether both are one reader.
fn is_same_reader(one: &Reader, other: &Reader) -> bool
    ensures { IsTrue result → one.now ≡ other.now }
{
    is_signed_alike(one, other) && has_same_rights(one, other)
}

/// Whether both have one name, version and token.
fn is_signed_alike(one: &Reader, other: &Reader) -> bool
    ensures name { IsTrue result → one.now.name ≡ other.now.name }
    ensures version { IsTrue result → one.now.version ≡ other.now.version }
    ensures token { IsTrue result → one.now.token ≡ other.now.token }
{
    one.name == other.name && one.version == other.version && one.token == other.token
}

/// Whether both have one role, user and groups.
fn has_same_rights(one: &Reader, other: &Reader) -> bool
    ensures role { IsTrue result → one.now.role ≡ other.now.role }
    ensures user { IsTrue result → one.now.user ≡ other.now.user }
    ensures groups { IsTrue result → one.now.groups ≡ other.now.groups }
{
    is_same_role(one.role, other.role)
        && one.user.get() == other.user.get()
        && one.groups == other.groups
}

fn is_same_role(one: Role, other: Role) -> bool
    ensures { IsTrue result → one ≡ other }
{
    one == other
}

// ---- copies of changes

/// Those of the changes from `start` on, which is 0 at the first, and at most `count` of them.
fn slice_of(
    alloc: Global,
    seen: &[Seen],
    start: usize,
    count: usize,
) -> Result<Vec<Seen>, AllocError>
    ensures { IfOk result (λ slice. slice.items ≡ take count (drop start seen.now)) }
{
    let rest = &seen[start.min(seen.len())..];
    copies_of(alloc, &rest[..count.min(rest.len())])
}

fn copies_of(alloc: Global, seen: &[Seen]) -> Result<Vec<Seen>, AllocError>
    ensures { IfOk result (λ copies. copies.items ≡ seen.now) }
{
    let mut copies = Vec::with_capacity(alloc, seen.len())?;
    for change in seen {
        copies.push(copy_of(change)?)?;
    }
    Ok(copies)
}

/// A copy shares the names.
fn copy_of(change: &Seen) -> Result<Seen, AllocError>
    ensures { IfOk result (λ copy. copy ≡ change.now) }
{
    Ok(Seen {
        moment: change.moment,
        object: object_copy(&change.object)?,
        kind: change.kind,
    })
}

fn object_copy(object: &Object) -> Result<Object, AllocError>
    ensures { IfOk result (λ copy. copy ≡ object.now) }
{
    match object {
        Object::Reader(name) => Ok(Object::Reader(name.copy()?)),
        Object::Manifest(name) => Ok(Object::Manifest(name.copy()?)),
        Object::Note { owner, name } => {
            let (owner, name) = copy_both(owner, name)?;
            Ok(Object::Note { owner, name })
        }
    }
}
