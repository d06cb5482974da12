ghost use Rattle.std.specs.Prelude.{◌≡◌, ◌∷◌, ◌++◌, [], IfOk, IsTrue, None, OnOk};
ghost use Rattle.std.specs.Prelude.{filter, if◌then◌else◌};
ghost use Rattle.std.specs.List.{AllPass};
ghost use Rattle.std.specs.Option.{option_copied};
ghost use Rattle.an_base.specs.Name.{is_name};
ghost use Rattle.an_base.specs.TextSet.{ascending};
ghost use Rattle.an_policy.specs.Audience.{identity};
ghost use Rattle.an_search.specs.Gathered.{each_once, lent_names, searched};
ghost use Rattle.an_search.specs.Wanted.{given_pieces};
ghost use Rattle.an_state.specs.View.{view_of};
ghost use Rattle.an_gather.specs.Chosen.{chosen, is_shown, scope_of};
ghost use Rattle.an_gather.specs.Gather.{bad_names};

use an_base::{Name, Text, TextSet, name_in};
use an_keyed::Keyed;
use an_policy::Who;
use an_search::{Scope, given_pieces};
use an_state::{Look, shown_manifest};
use std::alloc::{AllocError, Global};

/// The manifests whose annotations are searched, and the names of those that are named.
#[derive(Drop)]
pub(crate) struct Manifests<'a> {
    pub(crate) scope: Scope,
    pub(crate) names: Vec<&'a Name>,
}

/// All manifests that the caller may read, or where some are named, those of them that it may read.
pub(crate) fn chosen<'a, T: Look>(
    alloc: Global,
    look: &'a T,
    who: &Who<'_>,
    manifests: Option<&Text>,
) -> Result<Manifests<'a>, AllocError>
    requires names { bad_names (option_copied manifests) ≡ None }
    ensures chosen { IfOk result (λ found. searched
        (view_of (T.state look.now) (identity who.now)) found.scope found.names.items
        ≡ chosen (view_of (T.state look.now) (identity who.now))
        (given_pieces (option_copied manifests.entry))) }
    ensures once { IfOk result (λ found. IsTrue (each_once (lent_names found.names.items))) }
{
    let pieces = given_pieces(alloc, manifests)?;
    let names = shown_among(alloc, look, who, pieces.as_slice())?;
    Ok(Manifests {
        scope: scope_of(pieces.as_slice()),
        names,
    })
}

/// All manifests are searched where none is named.
fn scope_of(names: &[Text]) -> Scope
    ensures { result ≡ scope_of names.now }
{
    if names.is_empty() {
        Scope::All
    } else {
        Scope::Named
    }
}

/// The names among these that are those of manifests that the caller may read, each once, ascending
/// by their bytes.
fn shown_among<'a, T: Look>(
    alloc: Global,
    look: &'a T,
    who: &Who<'_>,
    names: &[Text],
) -> Result<Vec<&'a Name>, AllocError>
    requires names { AllPass is_name names.now }
    ensures names { IfOk result (λ found. lent_names found.items
        ≡ filter (is_shown (view_of (T.state look.now) (identity who.now)))
        (ascending names.now)) }
    ensures once { IfOk result (λ found. IsTrue (each_once (lent_names found.items))) }
{
    let names = TextSet::of(alloc, names)?;
    let found = shown_in(alloc, look, who, &names)?;
    Ok(found)
}

fn shown_in<'a, T: Look>(
    alloc: Global,
    look: &'a T,
    who: &Who<'_>,
    names: &TextSet,
) -> Result<Vec<&'a Name>, AllocError>
    requires names { AllPass is_name names.now }
    ensures { IfOk result (λ found. lent_names found.items
        ≡ filter (is_shown (view_of (T.state look.now) (identity who.now))) names.now) }
{
    let mut found = Vec::new(alloc);
    for place in 0..names.len() {
        push_named(alloc, &mut found, look, who, names.text(place))?;
    }
    Ok(found)
}

/// Adds the name if it is that of a manifest that the caller may read.
#[tactic(auto, using(crate::proofs::NameLemmas::named_text))]
fn push_named<'a, T: Look>(
    alloc: Global,
    found: &mut Vec<&'a Name>,
    look: &'a T,
    who: &Who<'_>,
    text: &str,
) -> Result<(), AllocError>
    requires name { IsTrue (is_name text.now) }
    ensures { OnOk result (lent_names found.new.items ≡ lent_names found.old.items
        ++ (if is_shown (view_of (T.state look.now) (identity who.now)) text.now
        then text.now ∷ [] else [])) }
{
    match name_in(alloc, text)? {
        Some(name) => push_if_shown(found, look, who, &name),
        // The text is a name.
        None => Ok(()),
    }
}

fn push_if_shown<'a, T: Look>(
    found: &mut Vec<&'a Name>,
    look: &'a T,
    who: &Who<'_>,
    name: &Name,
) -> Result<(), AllocError>
    ensures { OnOk result (lent_names found.new.items ≡ lent_names found.old.items
        ++ (if is_shown (view_of (T.state look.now) (identity who.now)) name.now
        then name.now ∷ [] else [])) }
{
    match shown_manifest(look, who, name) {
        Some(row) => {
            found.push(row.name())?;
            Ok(())
        }
        None => Ok(()),
    }
}
