//! What a seat knows, and the rule over what is published and what all seats know.
use crate::published::Published;
use atomic_table::{Join, Split};
use crossbeam_utils::rule::{Outcome, Protocol};
use std::marker::{Brand, Model};

/// What a seat knows: contracts alone speak of it, and no value of it is made.
pub struct SeatKnowledge {
    nothing: (),
}

impl Model for SeatKnowledge {
    ghost use Rattle.std.specs.Coded.{codes};
    ghost use Rattle.an_base.specs.TreeCode.{tree_code};
    ghost use Rattle.an_published.specs.Known.{Known, newcomer};

    ghost Value = { Known };

    ghost coded = { Prim.hlevel (codes, tree_code) };

    ghost view = { λ v. newcomer };
}

/// The rule of a store: all seats have seen beginnings of one list.
pub struct OneList;

impl Protocol<Published, SeatKnowledge> for OneList {
    ghost use Rattle.an_published.specs.Known.{newcomer};
    ghost use Rattle.an_published.specs.Rule.{IsOneList};

    ghost holds = { IsOneList };

    ghost first = { newcomer };
}

/// A seat looks at what is published.
pub(crate) struct Looking;

impl Outcome<Published, SeatKnowledge> for Looking {
    ghost use Rattle.an_published.specs.Rule.{Looks};

    ghost then = { Looks };
}

/// A seat looks, and takes the last event that it saw before for its own.
pub(crate) struct Earning;

impl Outcome<Published, SeatKnowledge> for Earning {
    ghost use Rattle.an_published.specs.Rule.{Earns};

    ghost then = { Earns };
}

/// The writer publishes.
pub(crate) struct Publishing;

impl Outcome<Published, SeatKnowledge> for Publishing {
    ghost use Rattle.an_published.specs.Rule.{Publishes};

    ghost then = { Publishes };
}

/// The writer tells a new seat what is published.
pub(crate) struct Telling;

impl Split<SeatKnowledge> for Telling {
    ghost use Rattle.an_published.specs.Rule.{told};

    ghost left = { λ v. v };

    ghost right = { told };
}

impl Join<SeatKnowledge> for Telling {
    ghost use Rattle.an_published.specs.Known.{newcomer};
    ghost use Rattle.an_published.specs.Rule.{taught};

    ghost both = { taught };

    ghost spent = { newcomer };
}

/// The name of a store, which ties its seats to it. A program has it for contracts alone.
pub trait Naming {
    ghost use Rattle.logbook.specs.Pages.{Book};

    // The history of the store.
    ghost book: { Book };
}

impl Naming for Brand {
    ghost use Rattle.an_published.specs.Lists.{no_book};

    ghost book = { no_book };
}
