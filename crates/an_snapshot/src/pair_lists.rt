ghost use Rattle.std.specs.Prelude.{◌≡◌, ◌++◌, ◌∷◌, [], ℕ, ◌<◌, ◌≤◌, List, OnErr, OnOk, length};
ghost use Rattle.std.specs.Prelude.{slice_get};
ghost use Rattle.std.specs.Option.{option_copied};
ghost use Rattle.an_snapshot.specs.PairLists.{AreFiled, with_next};

use std::alloc::{AllocError, Global};
use std::marker::Model;

/// The places of changes by the numbers of their pairs: those of each pair in a list, ascending.
/// Contracts see the lists, and how many places are filed.
#[derive(Drop)]
pub(crate) struct PairLists {
    alloc: Global,
    lists: Vec<Vec<u32>>,
    count: u32,
}

impl Model for PairLists {
    ghost use Rattle.std.specs.Prelude.{map};
    ghost use Rattle.an_snapshot.specs.PairLists.{Filed};

    ghost Value = { Filed };

    ghost view = { λ l. record { lists = map (λ v. v.items) l.lists.items; count = l.count } };
}

impl PairLists {
    /// No lists. It takes no memory.
    pub fn new(alloc: Global) -> PairLists
        ensures lists { result.lists ≡ [] }
        ensures count { result.count ≡ 0 }
    {
        PairLists {
            alloc,
            lists: Vec::new(alloc),
            count: 0,
        }
    }

    /// How many places are filed.
    pub fn count(&self) -> usize
        ensures count { result ≡ self.now.count }
    {
        self.count as usize
    }

    /// The places of the pair of this number, if it has a list.
    pub fn list(&self, number: usize) -> Option<&[u32]>
        ensures list { option_copied result ≡ slice_get self.now.lists number }
    {
        match self.lists.get(number) {
            Some(list) => Some(list.as_slice()),
            None => None,
        }
    }

    /// Files the next place under the pair of this number. Where memory runs out, or places no
    /// longer go into 32 bits, nothing is filed.
    pub fn file(&mut self, number: u32) -> Result<(), AllocError>
        ensures ok { OnOk result ((numbers : List ℕ) → AreFiled numbers self.old
            → AreFiled (numbers ++ number ∷ []) self.new) }
        ensures err { OnErr result ((numbers : List ℕ) → AreFiled numbers self.old
            → AreFiled numbers self.new) }
    {
        self.lengthen(number as usize + 1)?;
        self.push(number as usize)?;
        Ok(())
    }

    /// Makes lists until there are so many.
    fn lengthen(&mut self, number: usize) -> Result<(), AllocError>
        ensures ok { OnOk result (number ≤ length self.new.lists) }
        ensures filed { (numbers : List ℕ) → AreFiled numbers self.old
            → AreFiled numbers self.new }
    {
        while self.lists.len() < number {
            self.lists.push(Vec::new(self.alloc))?;
        }
        Ok(())
    }

    /// Puts the next place into a list.
    fn push(&mut self, number: usize) -> Result<(), AllocError>
        requires within { number < length self.old.lists }
        ensures ok { OnOk result (self.new ≡ with_next number self.old) }
        ensures err { OnErr result (self.new ≡ self.old) }
    {
        let Some(next) = self.count.checked_add(1) else {
            return Err(AllocError);
        };
        self.lists[number].push(self.count)?;
        self.count = next;
        Ok(())
    }
}
