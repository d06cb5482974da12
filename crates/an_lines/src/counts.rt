ghost use Rattle.std.specs.Prelude.{◌≡◌, ◌+◌, ◌-◌, ◌<◌, ◌^◌, IfOk, string_bytes};
ghost use Rattle.an_lines.specs.Import.{counts_line, with_done, with_old};

use std::alloc::{AllocError, Global};

/// How many lines of an import were accepted, were repeats, and were old.
#[derive(Clone, Copy, Debug)]
pub(crate) struct Counts {
    pub accepted: usize,
    pub repeated: usize,
    pub old: usize,
}

/// No line was taken yet.
pub(crate) const NO_COUNTS: Counts = Counts {
    accepted: 0,
    repeated: 0,
    old: 0,
};

/// One more that is done, as a repeat or not.
pub(crate) fn with_done(repeat: bool, counts: Counts) -> Counts
    requires { counts.accepted + counts.repeated + counts.old < 2 ^ 64 - 1 }
    ensures { result ≡ with_done repeat counts }
{
    if repeat {
        Counts {
            repeated: counts.repeated + 1,
            ..counts
        }
    } else {
        Counts {
            accepted: counts.accepted + 1,
            ..counts
        }
    }
}

/// One more that is old.
pub(crate) fn with_old(counts: Counts) -> Counts
    requires { counts.accepted + counts.repeated + counts.old < 2 ^ 64 - 1 }
    ensures { result ≡ with_old counts }
{
    Counts {
        old: counts.old + 1,
        ..counts
    }
}

/// The counts, as they are printed.
pub(crate) fn counts_line(alloc: Global, counts: Counts) -> Result<String, AllocError>
    ensures { IfOk result (λ text. string_bytes text ≡ counts_line counts) }
{
    let Counts {
        accepted,
        repeated,
        old,
    } = counts;
    format!(in alloc; "accepted {accepted} repeated {repeated} old {old}\n")
}
