ghost use Rattle.std.specs.Prelude.{◌≡◌, ◌+◌, ◌++◌, [], IfOk};
ghost use Rattle.an_base.specs.Write.{item_text};
ghost use Rattle.an_iri.specs.Iris.{note_iri};
ghost use Rattle.an_list.specs.Page.{start_of};
ghost use Rattle.an_anchor.specs.Comments.{item_tree};
ghost use Rattle.an_anchor.specs.Walk.{has_place, meets};

use crate::anchored::Anchor;
use crate::written::push_item;
use an_base::Name;
use an_iri::note_iri;
use std::alloc::{AllocError, Global};

/// Which items of a list stand on a page.
#[derive(Clone, Copy)]
pub(crate) struct Window {
    /// How many stand on the pages before.
    pub start: usize,
    /// How many the page has at most.
    pub size: u32,
}

impl Window {
    /// The page of this number.
    pub(crate) fn of(page: u32, size: u32) -> Window
        ensures start { result.start ≡ start_of page size }
        ensures size { result.size ≡ size }
    {
        Window {
            start: page.saturating_sub(1) as usize * size as usize,
            size,
        }
    }

    /// Whether the item at this place of the list stands on the page.
    pub(crate) fn has_place(self, place: usize) -> bool
        ensures { result ≡ has_place self place }
    {
        self.start <= place && place - self.start < self.size as usize
    }

    /// Whether one does of so many items from this place on.
    pub(crate) fn meets(self, place: usize, count: usize) -> bool
        ensures { result ≡ meets self place count }
    {
        0 < count
            && (self.start < place || self.start - place < count)
            && (place < self.start || place - self.start < self.size as usize)
    }
}

/// What a walk over comments has written of a page, and how many it has met.
#[derive(Drop)]
pub(crate) struct Counted {
    /// The items of the page, each with a comma before it.
    pub items: Vec<u8>,
    pub total: usize,
}

/// Nothing yet.
pub(crate) fn none_counted(alloc: Global) -> Counted
    ensures items { result.items.items ≡ [] }
    ensures total { result.total ≡ 0 }
{
    Counted {
        items: Vec::new(alloc),
        total: 0,
    }
}

/// Counts so many comments that don't stand on the page.
pub(crate) fn pass_by(counted: Counted, count: usize) -> Result<Counted, AllocError>
    ensures items { IfOk result (λ new. new.items.items ≡ counted.items.items) }
    ensures total { IfOk result (λ new. new.total ≡ counted.total + count) }
{
    let Counted { items, total } = counted;
    match total.checked_add(count) {
        Some(total) => Ok(Counted { items, total }),
        // So many don't fit into memory.
        None => Err(AllocError),
    }
}

/// Counts a comment, the target of this number of an annotation, and writes what it comes to.
pub(crate) fn write_counted(
    alloc: Global,
    counted: Counted,
    base: &str,
    owner: &Name,
    name: &Name,
    number: usize,
    anchor: &Anchor,
) -> Result<Counted, AllocError>
    ensures items { IfOk result (λ new. new.items.items ≡ counted.items.items
        ++ item_text (item_tree (note_iri base.now owner.now name.now) number anchor.now)) }
    ensures total { IfOk result (λ new. new.total ≡ counted.total + 1) }
{
    let iri = note_iri(alloc, base, owner, name)?;
    let Counted { items, total } = pass_by(counted, 1)?;
    let items = push_item(items, iri.as_str(), number, anchor)?;
    Ok(Counted { items, total })
}
