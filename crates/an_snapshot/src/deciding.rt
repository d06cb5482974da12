ghost use Rattle.std.specs.Prelude.{◌≡◌, IfOk, Some};
ghost use Rattle.std.specs.Option.{option_copied};
ghost use Rattle.an_policy.specs.Audience.{deciding};
ghost use Rattle.an_policy.specs.Classes.{Grows, class_of};

use an_base::{Name, TryCopy};
use an_policy::{Audience, Classes, Group, Inner, deciding_owner};
use std::alloc::AllocError;

/// The class of what of an audience in parts decides who may read, which has one then. So there are
/// no more classes than sets of callers: owners of what everybody may read share one.
pub(crate) fn deciding_class(
    classes: &mut Classes,
    outer: &Group,
    inner: &Inner,
    owner: Option<&Name>,
) -> Result<usize, AllocError>
    ensures grows { Grows classes.old classes.new }
    ensures class { IfOk result (λ class. class_of (deciding
        (record { outer = outer.now; inner = inner.now; owner = option_copied owner.entry }))
        classes.new ≡ Some class) }
{
    class_of(classes, outer, inner, deciding_owner(inner, owner))
}

/// The class of an audience in parts, which has one then.
fn class_of(
    classes: &mut Classes,
    outer: &Group,
    inner: &Inner,
    owner: Option<&Name>,
) -> Result<usize, AllocError>
    ensures grows { Grows classes.old classes.new }
    ensures class { IfOk result (λ class. class_of
        (record { outer = outer.now; inner = inner.now; owner = option_copied owner.entry })
        classes.new ≡ Some class) }
{
    match classes.class_of_parts(outer, inner, owner) {
        Some(class) => Ok(class),
        None => add_class(classes, outer, inner, owner),
    }
}

fn add_class(
    classes: &mut Classes,
    outer: &Group,
    inner: &Inner,
    owner: Option<&Name>,
) -> Result<usize, AllocError>
    ensures grows { Grows classes.old classes.new }
    ensures class { IfOk result (λ class. class_of
        (record { outer = outer.now; inner = inner.now; owner = option_copied owner.entry })
        classes.new ≡ Some class) }
{
    let outer = outer.copy()?;
    let inner = inner.copy()?;
    let owner = copy_name(owner)?;
    classes.add(&Audience {
        outer,
        inner,
        owner,
    })
}

fn copy_name(name: Option<&Name>) -> Result<Option<Name>, AllocError>
    ensures { IfOk result (λ copy. copy ≡ option_copied name.entry) }
{
    match name {
        Some(name) => Ok(Some(name.copy()?)),
        None => Ok(None),
    }
}
