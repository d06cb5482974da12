ghost use Rattle.std.specs.Prelude.{◌≡◌, ◌∷◌, [], ◌++◌, ℕ, List, IfOk, OnOk, unwrap_or};
ghost use Rattle.std.specs.Option.{option_to_list};
ghost use Rattle.std.specs.BTreeMap.{get_by_text};
ghost use Rattle.an_harvest.specs.Live.{Ascend, after, before, merge, object_at, object_of};

use crate::known::KnownObject;
use an_base::{Text, TryCopy};
use std::alloc::{AllocError, Global};
use std::cmp::Ordering;
use std::collections::BTreeMap;

/// What is known, and in its place what is new, where it lives: ascending by the bytes of the IRIs.
pub(crate) fn living(
    alloc: Global,
    known: &[KnownObject],
    latest: BTreeMap<String, Option<bool>>,
) -> Result<Vec<KnownObject>, AllocError>
    requires known_order { Ascend known.now }
    ensures objects { IfOk result (λ objects. objects.items ≡ merge latest.entries known.now) }
    ensures order { IfOk result (λ objects. Ascend objects.items) }
    ensures found { IfOk result (λ objects. (id : List ℕ) → object_at objects.items id
        ≡ unwrap_or (get_by_text latest id) (object_at known.now id)) }
{
    let count = known.len().saturating_add(latest.len());
    let mut objects = Vec::with_capacity(alloc, count)?;
    let mut rest = known;
    for (id, left) in latest {
        rest = copy_before(&mut objects, rest, id.as_str())?;
        push_living(&mut objects, id, left)?;
    }
    copy_all(&mut objects, rest)?;
    Ok(objects)
}

/// Pushes what is left of an object, where it lives.
fn push_living(
    objects: &mut Vec<KnownObject>,
    id: String,
    left: Option<bool>,
) -> Result<(), AllocError>
    ensures { OnOk result (objects.new.items ≡ objects.old.items
        ++ option_to_list (object_of (id, left))) }
{
    match left {
        Some(manifest) => {
            let id = Text::from_string(id);
            objects.push(KnownObject { id, manifest })?;
            Ok(())
        }
        None => Ok(()),
    }
}

/// Copies the known objects before an IRI, and gives those after it.
fn copy_before<'a>(
    objects: &mut Vec<KnownObject>,
    known: &'a [KnownObject],
    id: &str,
) -> Result<&'a [KnownObject], AllocError>
    requires order { Ascend known.now }
    ensures copied { OnOk result (objects.new.items ≡ objects.old.items
        ++ before id.now known.now) }
    ensures left { IfOk result (λ left. left.now ≡ after id.now known.now) }
{
    let mut rest = known;
    while let Some((object, others)) = rest.split_first() {
        match object.id.as_str().as_bytes().cmp(id.as_bytes()) {
            Ordering::Less => copy_one(objects, object)?,
            Ordering::Equal => return Ok(others),
            Ordering::Greater => return Ok(rest),
        }
        rest = others;
    }
    Ok(rest)
}

fn copy_all(objects: &mut Vec<KnownObject>, known: &[KnownObject]) -> Result<(), AllocError>
    ensures { OnOk result (objects.new.items ≡ objects.old.items ++ known.now) }
{
    for object in known {
        copy_one(objects, object)?;
    }
    Ok(())
}

fn copy_one(objects: &mut Vec<KnownObject>, object: &KnownObject) -> Result<(), AllocError>
    ensures { OnOk result (objects.new.items ≡ objects.old.items ++ object.now ∷ []) }
{
    let id = object.id.copy()?;
    objects.push(KnownObject {
        id,
        manifest: object.manifest,
    })?;
    Ok(())
}
