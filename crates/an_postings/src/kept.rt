ghost use Rattle.std.specs.Prelude.{◌≡◌, ◌+◌, ◌-◌, ◌≤◌, ◌++◌, ◌||◌, [], IfOk, IsTrue, OnOk};
ghost use Rattle.std.specs.Prelude.{nat_lt, true};
ghost use Rattle.std.specs.Option.{IfSome};
ghost use Rattle.std.specs.Vec.{vec_capacity, vec_len};
ghost use Rattle.an_slots.specs.Places.{Rises, has, with_place, without_place};
ghost use Rattle.an_postings.specs.Kept.{IsKept, seen};

use crate::leaner::slim;
use crate::merge::copied;
use crate::noted::Noted;
use crate::places::{add_to, is_in, remove_from};
use std::alloc::{AllocError, Global};
use std::collections::VecDeque;
use std::marker::Model;
use std::mem::replace;

/// Places in order. Contracts see their list, and for how many more they have memory.
#[derive(Drop)]
pub(crate) struct Places {
    alloc: Global,
    form: Form,
}

/// Most lists are short: these take little memory, and all their places are quickly moved.
#[derive(Drop)]
enum Form {
    Few(Vec<u32>),
    Many(Box<Noted>),
}

impl Model for Places {
    ghost use Rattle.an_postings.specs.Kept.{IsKept, seen};
    ghost use Rattle.an_postings.specs.Live.{PlaceList};

    ghost Value = { PlaceList };

    ghost view = { λ p. seen p.form };

    ghost invariant = { λ p. IsKept p.form };
}

impl Places {
    /// No places, which take no memory.
    pub fn new(alloc: Global) -> Places
        ensures items { result.items ≡ [] }
    {
        Places {
            alloc,
            form: Form::Few(Vec::new(alloc)),
        }
    }

    /// Takes the memory for so many places more.
    pub fn reserve(&mut self, more: usize) -> Result<(), AllocError>
        ensures items { self.new.items ≡ self.old.items }
        ensures ok { OnOk result (more ≤ self.new.room) }
        ensures room { self.old.room ≤ self.new.room }
    {
        let form = replace(&mut self.form, Form::Few(Vec::new(self.alloc)));
        self.form = longer(self.alloc, form);
        self.reserve_there(more)
    }

    fn reserve_there(&mut self, more: usize) -> Result<(), AllocError>
        ensures items { self.new.items ≡ self.old.items }
        ensures ok { OnOk result (more ≤ self.new.room) }
        ensures room { self.old.room ≤ self.new.room }
    {
        match &mut self.form {
            Form::Few(few) => few.reserve(more),
            Form::Many(many) => many.reserve(more),
        }
    }

    /// Adds the place, if it isn't there. It takes no memory.
    pub fn add(&mut self, place: u32)
        requires room { IsTrue (has place self.old.items || nat_lt 0 self.old.room) }
        ensures rises { Rises 0 self.new.items }
        ensures places { self.new.items ≡ with_place place self.old.items }
        ensures room { self.old.room ≤ self.new.room + 1 }
    {
        match &mut self.form {
            Form::Few(few) => add_few(few, place),
            Form::Many(many) => many.add(place),
        }
    }

    /// Takes the place out, if it is there. It takes no memory.
    pub fn remove(&mut self, place: u32)
        ensures rises { Rises 0 self.new.items }
        ensures places { self.new.items ≡ without_place place self.old.items }
        ensures room { self.old.room ≤ self.new.room }
    {
        match &mut self.form {
            Form::Few(few) => remove_few(few, place),
            Form::Many(many) => many.remove(place),
        }
    }

    /// Gives back half of the memory and more, where less than a quarter of it is in use. Where the
    /// smaller memory can't be had, the larger stays.
    pub fn slim(&mut self)
        ensures places { self.new.items ≡ self.old.items }
    {
        let form = replace(&mut self.form, Form::Few(Vec::new(self.alloc)));
        self.form = shorter(form);
        self.slim_there();
    }

    fn slim_there(&mut self)
        ensures places { self.new.items ≡ self.old.items }
    {
        match &mut self.form {
            Form::Few(few) => slim(few),
            Form::Many(many) => many.slim(),
        }
    }

    /// Whether no place is there, nor noted.
    pub fn is_empty(&self) -> bool
        ensures { result ≡ true → self.now.items ≡ [] }
    {
        match &self.form {
            Form::Few(few) => few.is_empty(),
            Form::Many(many) => many.is_empty(),
        }
    }

    /// Whether the place is there.
    pub fn has(&self, place: usize) -> bool
        ensures { result ≡ has place self.now.items }
    {
        match &self.form {
            Form::Few(few) => is_in(few.as_slice(), place),
            Form::Many(many) => many.has(place),
        }
    }

    /// How many places there are, those that are gone among them. Nothing is promised of it.
    pub fn len(&self) -> usize {
        match &self.form {
            Form::Few(few) => few.len(),
            Form::Many(many) => many.len(),
        }
    }

    /// The two runs in which they stand in memory, where none that stands there is gone.
    pub fn runs(&self) -> Option<(&[u32], &[u32])>
        ensures runs { IfSome result (λ runs. runs.0.now ++ runs.1.now ≡ self.now.items) }
    {
        match &self.form {
            Form::Few(few) => Some((few.as_slice(), &[])),
            Form::Many(many) => many.runs(),
        }
    }

    /// A copy of them.
    pub fn copied(&self, alloc: Global) -> Result<Vec<u32>, AllocError>
        ensures places { IfOk result (λ places. places.items ≡ self.now.items) }
        ensures rises { IfOk result (λ places. Rises 0 places.items) }
    {
        match &self.form {
            Form::Few(few) => copied(alloc, few.as_slice()),
            Form::Many(many) => many.copied(alloc),
        }
    }
}

/// A copy has memory for its places alone, and none of those that are gone.
impl Clone for Places {
    ghost is_clone = { λ old new. new.items ≡ old.items };

    fn clone(&self) -> Result<Places, AllocError> {
        let few = self.copied(self.alloc)?;
        Ok(Places {
            alloc: self.alloc,
            form: Form::Few(few),
        })
    }
}

/// Places that have become many as such, where the memory for it can be had.
fn longer(alloc: Global, form: Form) -> Form
    requires kept { IsKept form }
    ensures kept { IsKept result }
    ensures items { (seen result).items ≡ (seen form).items }
    ensures room { (seen form).room ≤ (seen result).room }
{
    match form {
        Form::Few(few) => few_or_many(alloc, few),
        Form::Many(many) => Form::Many(many),
    }
}

fn few_or_many(alloc: Global, few: Vec<u32>) -> Form
    requires rises { Rises 0 few.items }
    ensures kept { IsKept result }
    ensures items { (seen result).items ≡ few.items }
    ensures room { vec_capacity few - vec_len few ≤ (seen result).room }
{
    if few.len() < 1024 {
        return Form::Few(few);
    }
    match Box::new(alloc, Noted::of(alloc, few)) {
        Ok(many) => Form::Many(many),
        Err(failed) => Form::Few(failed.value.into_vec()),
    }
}

/// Places that have become few as such.
fn shorter(form: Form) -> Form
    requires kept { IsKept form }
    ensures kept { IsKept result }
    ensures items { (seen result).items ≡ (seen form).items }
{
    match form {
        Form::Few(few) => Form::Few(few),
        Form::Many(many) => many_or_few(many),
    }
}

fn many_or_few(many: Box<Noted>) -> Form
    ensures kept { IsKept result }
    ensures items { (seen result).items ≡ many.value.items }
{
    if many.len() < 512 {
        Form::Few(Box::into_inner(many).into_vec())
    } else {
        Form::Many(many)
    }
}

/// A short list changes as a ring, which has its memory, so one function adds to both.
fn add_few(few: &mut Vec<u32>, place: u32)
    requires rises { Rises 0 few.old.items }
    requires room { IsTrue (has place few.old.items
        || nat_lt 0 (vec_capacity few.old - vec_len few.old)) }
    ensures rises { Rises 0 few.new.items }
    ensures places { few.new.items ≡ with_place place few.old.items }
    ensures room { vec_capacity few.old - vec_len few.old
        ≤ vec_capacity few.new - vec_len few.new + 1 }
{
    let none = Vec::new(*few.allocator());
    let mut ring = VecDeque::from_vec(replace(few, none));
    add_to(&mut ring, place);
    *few = ring.into_vec();
}

fn remove_few(few: &mut Vec<u32>, place: u32)
    requires rises { Rises 0 few.old.items }
    ensures rises { Rises 0 few.new.items }
    ensures places { few.new.items ≡ without_place place few.old.items }
    ensures room { vec_capacity few.old - vec_len few.old
        ≤ vec_capacity few.new - vec_len few.new }
{
    let none = Vec::new(*few.allocator());
    let mut ring = VecDeque::from_vec(replace(few, none));
    remove_from(&mut ring, place);
    *few = ring.into_vec();
}
