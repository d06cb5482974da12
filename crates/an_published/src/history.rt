//! The history of a store, which only grows. Its memory is one word: the events are there for
//! contracts alone.
ghost use Rattle.std.specs.Prelude.{◌≡◌, ◌≤◌, ◌^◌, [], ◌∷◌, ◌++◌, length, true, IfSome, None};
ghost use Rattle.an_laws.specs.Events.{Opened};
ghost use Rattle.an_published.specs.History.{head_of};

use crate::event::{Event, KeptEvent, OpeningEvent};
use an_keep::Keeper;
use an_state::Book;
use logbook::{Gain, Offer, Opening, Plain, Play, Rule, Seen, Start, Word};
use std::marker::Model;
use std::sync::Wait;

/// The rule of a history.
pub struct Law;

impl Rule<Event, u64> for Law {
    ghost use Rattle.std.specs.Prelude.{[], ⊤};
    ghost use base.Fml.{ftrue};
    ghost use Rattle.an_published.specs.History.{IsKept};

    ghost holds = { IsKept };

    ghost first = { [] };

    ghost hinted = { λ n log. ⊤ };

    ghost shows = { λ log. [] };

    ghost keeps = { λ names log. ftrue };

    ghost moves = { λ ask before after answer. ⊤ };
}

/// The word that counts the events behind the first.
pub type Head = Word<Event, u64, Law>;

/// A beginning of a history that was reached, and how many events it has behind the first.
#[derive(Drop)]
pub struct Mark {
    seen: Seen<Event, u64, Law>,
    count: u64,
}

impl Model for Mark {
    ghost use Rattle.std.specs.Prelude.{◌≡◌, ◌+◌, length};
    ghost use Rattle.std.specs.Coded.{codes};
    ghost use Rattle.an_base.specs.TreeCode.{tree_code};
    ghost use Rattle.an_published.specs.History.{Reached};

    ghost Value = { Reached };

    ghost coded = { Prim.hlevel (codes, tree_code) };

    ghost view = { λ m. record { book = m.seen.book; list = m.seen.log } };

    ghost invariant = { λ m. length m.seen.log ≡ m.count + 1 };
}

struct First;

impl<K: Keeper> Opening<OpeningEvent<K>, Event> for First {
    ghost use Rattle.std.specs.Prelude.{[], ◌∷◌};

    ghost log = { λ count found. found ∷ [] };
}

struct Nothing;

impl Gain<Event, u64> for Nothing {
    ghost use base.Fml.{ftrue};

    ghost after = { λ names about answer. ftrue };
}

struct Add;

impl Play<Event, u64> for Add {
    ghost use Rattle.an_published.specs.History.{Adds};

    ghost then = { Adds };
}

impl<K: Keeper> Plain<KeptEvent<K>, Event, u64> for Add {
    ghost use Rattle.std.specs.Prelude.{None};

    ghost ask = { λ kept. kept };

    ghost state = { λ kept. None };
}

/// A history that begins with the opening of a book that this keeper keeps.
pub fn begin<K: Keeper>(book: &Book, keeper: &K) -> (Head, Mark)
    ensures list { result.1.list ≡ Opened book.now.state (K.told keeper.now) ∷ [] }
    ensures head { result.0 ≡ head_of result.1.book }
{
    let found = OpeningEvent::new(book, keeper);
    let (seen, mut pens) = Seen::open_row::<OpeningEvent<K>, First>(&found, Start::alone(), 1);
    let mut pen = pens.take();
    (Word::tracked(0, &mut pen), Mark { seen, count: 0 })
}

impl Mark {
    /// A copy. It takes no memory.
    pub fn again(&self) -> Mark
        ensures { result ≡ self.now }
    {
        Mark {
            seen: self.seen.again(),
            count: self.count,
        }
    }

    /// Whether both are as long: of one history two that are so are the same.
    pub(crate) fn is_same(&self, other: &Mark) -> bool
        requires { self.now.book ≡ other.now.book }
        ensures { result ≡ true → self.now.list ≡ other.now.list }
    {
        let mut both = self.seen.again();
        both.learn(&other.seen);
        self.count == other.count
    }

    /// How many there are behind the first with one more, where a word can count them.
    pub fn next(&self) -> Option<u64>
        ensures next { IfSome result (λ next. next ≡ length self.now.list) }
        ensures beyond { result ≡ None → 2 ^ 64 ≤ length self.now.list }
    {
        self.count.checked_add(1)
    }
}

/// Adds the write to all that was reached, where that is the whole history.
fn try_extend<K: Keeper>(head: &Head, mark: &Mark, next: u64, kept: &KeptEvent<K>) -> Option<Mark>
    requires head { head.now ≡ head_of mark.now.book }
    requires next { next ≡ length mark.now.list }
    ensures book { IfSome result (λ longer. longer.book ≡ mark.now.book) }
    ensures list { IfSome result (λ longer. longer.list ≡ mark.now.list ++ kept.now ∷ []) }
{
    let mut seen = mark.seen.again();
    let mut offer: Offer<Event, u64, Law, Nothing> = seen.plain::<Nothing, KeptEvent<K>, Add>(kept);
    let mut pen = seen.no_pen();
    let count = mark.count;
    let found = head.compare_exchange::<Add, Nothing>(count, next, &mut seen, &mut offer, &mut pen);
    if found == count {
        Some(Mark { seen, count: next })
    } else {
        None
    }
}

/// Adds the write to all that was reached. It tries again while that isn't the whole history.
pub fn extend<K: Keeper, R: Wait>(
    rt: &R,
    head: &Head,
    mark: &Mark,
    next: u64,
    kept: &KeptEvent<K>,
) -> Mark
    requires head { head.now ≡ head_of mark.now.book }
    requires next { next ≡ length mark.now.list }
    ensures book { result.book ≡ mark.now.book }
    ensures list { result.list ≡ mark.now.list ++ kept.now ∷ [] }
{
    for _ in rt.forever() {
        if let Some(longer) = try_extend(head, mark, next, kept) {
            return longer;
        }
    }
    unreachable!()
}
