ghost use Rattle.std.specs.Prelude.{◌≡◌, []};
ghost use Rattle.an_harvest.specs.Live.{Ascend};

use an_base::Text;
use std::alloc::Global;
use std::marker::Model;

/// A manifest or an annotation, by its IRI.
#[derive(Debug, PartialEq, Eq, Drop)]
pub struct KnownObject {
    pub id: Text,
    pub manifest: bool,
}

/// Objects that are known, ascending by the bytes of their IRIs, each once, and how many activities
/// they are known by.
#[derive(Debug, Drop)]
pub struct Known {
    objects: Vec<KnownObject>,
    items: u64,
}

impl Model for Known {
    ghost use Rattle.an_harvest.specs.Live.{Harvest, Ascend};

    ghost Value = { Harvest };

    ghost view = { λ k. record { objects = k.objects.items; items = k.items } };

    ghost invariant = { λ k. Ascend k.objects.items };
}

impl Known {
    /// No object and no activity. Takes no memory.
    pub fn new(alloc: Global) -> Known
        ensures none { result.objects ≡ [] }
        ensures start { result.items ≡ 0 }
    {
        Known {
            objects: Vec::new(alloc),
            items: 0,
        }
    }

    /// These objects, by so many activities. Takes no memory.
    pub(crate) fn of(objects: Vec<KnownObject>, items: u64) -> Known
        requires order { Ascend objects.items }
        ensures objects { result.objects ≡ objects.items }
        ensures items { result.items ≡ items }
    {
        Known { objects, items }
    }

    pub fn objects(&self) -> &[KnownObject]
        ensures objects { result.now ≡ self.now.objects }
        ensures order { Ascend self.now.objects }
    {
        self.objects.as_slice()
    }

    /// How many activities they are known by.
    pub fn items(&self) -> u64
        ensures items { result ≡ self.now.items }
    {
        self.items
    }
}
