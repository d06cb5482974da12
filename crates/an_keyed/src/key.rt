ghost use Rattle.std.specs.Prelude.{◌≡◌};
ghost use Rattle.std.specs.Option.{option_copied};
ghost use Rattle.an_keyed.specs.Key.{Key, same_key, same_owner};
ghost use Rattle.an_keyed.specs.KeyHash.{key_hash};

use crate::hashes::short_hash;
use an_base::{Name, Shared};
use std::hash::{DefaultHasher, Hash, Hasher};

/// What is kept under a key: an owner, where it has one, and a name.
pub trait Keyed {
    ghost key: { Self → Key };

    fn owner(&self) -> Option<&Name>
        ensures owner { option_copied result ≡ (key self.now).owner };

    fn name(&self) -> &Name
        ensures name { result.now ≡ (key self.now).name };
}

impl<R: Keyed + Drop> Keyed for Shared<R> {
    ghost key = { R.key };

    fn owner(&self) -> Option<&Name> {
        self.get().owner()
    }

    fn name(&self) -> &Name {
        self.get().name()
    }
}

/// Whether the row stands under this key.
pub(crate) fn has_key<R: Keyed>(row: &R, owner: Option<&Name>, name: &Name) -> bool
    ensures { result ≡ same_key (R.key row.now)
        (record { owner = option_copied owner.entry; name = name.now }) }
{
    is_same_owner(row.owner(), owner) && row.name() == name
}

/// Whether both are one owner, or both none. Takes no memory.
pub fn is_same_owner(one: Option<&Name>, other: Option<&Name>) -> bool
    ensures { result ≡ same_owner (option_copied one.entry) (option_copied other.entry) }
{
    match one {
        None => other.is_none(),
        Some(one) => match other {
            None => false,
            Some(other) => one == other,
        },
    }
}

/// The hash of a key. Its seed is fixed.
#[tactic(auto, unfolding(crate::specs::KeyHash::key_hash))]
pub(crate) fn hash_of(owner: Option<&Name>, name: &Name) -> u32
    ensures hash { result ≡ key_hash
        (record { owner = option_copied owner.entry; name = name.now }) }
{
    let mut hasher = DefaultHasher::new();
    text_of(owner).hash(&mut hasher);
    name.as_str().hash(&mut hasher);
    short_hash(hasher.finish())
}

fn text_of(owner: Option<&Name>) -> Option<&str>
    ensures text { option_copied result ≡ option_copied owner.entry }
{
    match owner {
        Some(owner) => Some(owner.as_str()),
        None => None,
    }
}
