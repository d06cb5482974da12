ghost use Rattle.std.specs.Prelude.{◌≡◌, fold};
ghost use Rattle.std.specs.Hash as fed;
ghost use Rattle.std.specs.Hash.DefaultHasher as sip;
ghost use Rattle.std.specs.List.{flat_map};
ghost use Rattle.std.specs.Option.{option_copied};
ghost use Rattle.an_policy.specs.AudienceHash.{audience_hash};
ghost use Rattle.an_policy.specs.Classes.{same_audience};
ghost use Rattle.an_policy.specs.Inner.{inner_texts};

use crate::group::{Audience, Group, group_text, is_same_group};
use crate::inner::{Inner, is_same_inner};
use an_base::Name;
use an_keyed::{is_same_owner, short_hash};
use std::hash::{DefaultHasher, Hash, Hasher};

/// Whether it is the audience of these parts.
pub(crate) fn has_parts(
    audience: &Audience,
    outer: &Group,
    inner: &Inner,
    owner: Option<&Name>,
) -> bool
    ensures same { result ≡ same_audience audience.now
        (record { outer = outer.now; inner = inner.now; owner = option_copied owner.entry }) }
{
    is_same_owner(audience.owner.as_ref(), owner)
        && is_same_inner(&audience.inner, inner)
        && is_same_group(&audience.outer, outer)
}

/// The hash of an audience. Its seed is fixed.
pub(crate) fn hash_of(audience: &Audience) -> u32
    ensures hash { result ≡ audience_hash audience.now }
{
    hash_of_parts(&audience.outer, &audience.inner, audience.owner.as_ref())
}

/// The same for an audience that is given in parts.
#[tactic(auto, unfolding(crate::specs::AudienceHash::audience_hash))]
pub(crate) fn hash_of_parts(outer: &Group, inner: &Inner, owner: Option<&Name>) -> u32
    ensures hash { result ≡ audience_hash
        (record { outer = outer.now; inner = inner.now; owner = option_copied owner.entry }) }
{
    let mut hasher = DefaultHasher::new();
    group_text(outer).hash(&mut hasher);
    feed_inner(&mut hasher, inner);
    text_of(owner).hash(&mut hasher);
    short_hash(hasher.finish())
}

/// Feeds the texts of the inner groups, ascending.
fn feed_inner(hasher: &mut DefaultHasher, inner: &Inner)
    ensures { hasher.new ≡ fold sip.write hasher.old (flat_map fed.str (inner_texts inner.now)) }
{
    match inner {
        Inner::Public => "public".hash(hasher),
        Inner::Private => "private".hash(hasher),
        Inner::Names(names) => feed_names(hasher, names.as_slice()),
    }
}

fn feed_names(hasher: &mut DefaultHasher, names: &[Name])
    ensures { hasher.new ≡ fold sip.write hasher.old (flat_map fed.str names.now) }
{
    for name in names {
        name.as_str().hash(hasher);
    }
}

fn text_of(owner: Option<&Name>) -> Option<&str>
    ensures text { option_copied result ≡ option_copied owner.entry }
{
    match owner {
        Some(owner) => Some(owner.as_str()),
        None => None,
    }
}
