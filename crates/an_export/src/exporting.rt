ghost use Rattle.std.specs.Prelude.{◌≡◌, ◌+◌, length, IfOk, OnOk};
ghost use Rattle.an_policy.specs.Audience.{identity};
ghost use Rattle.an_state.specs.View.{view_of};
ghost use Rattle.an_export.specs.Export.{exported};

use crate::shown::{push_manifests, push_notes};
use an_base::{Bytes, Steps};
use an_policy::Who;
use an_state::Look;
use std::alloc::{AllocError, Global};
use std::sync::ledger::Ledger;

/// What the caller sees, as lines that an import reads: a put for each live manifest that the
/// caller may read, and behind them one for each live annotation, both in the order in which they
/// were first made. A line says when its object was made, who made it, and its group, and it has
/// its tree as compact JSON (RFC 8259). Each object is put as its first version. Nothing hidden is
/// told in them; but the steps count every annotation's row, and one more. Its only error is want
/// of memory.
pub fn export<T: Look, L: Ledger>(
    alloc: Global,
    look: &T,
    who: &Who<'_>,
    steps: &mut Steps<L>,
) -> Result<Bytes, AllocError>
    ensures text { IfOk result
        (λ text. text ≡ exported (view_of (T.state look.now) (identity who.now))) }
    ensures steps { OnOk result (steps.new ≡ steps.old + length (T.state look.now).notes + 1) }
{
    let out = push_manifests(alloc, Vec::new(alloc), look, who)?;
    let out = push_notes(out, look, who, steps)?;
    Ok(Bytes::from_vec(out))
}
