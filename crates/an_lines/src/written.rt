ghost use Rattle.std.specs.Prelude.{◌≡◌, ◌<◌, None, Some, if◌then◌else◌};
ghost use Rattle.an_answers.specs.Refused.{write_refusal};
ghost use Rattle.an_lines.specs.Written.{is_old, writer};

use an_answers::write_refusal;
use an_base::Name;
use an_code::Code;
use an_machine::Refused;
use an_policy::Caller;

/// Who writes a line. A line by nobody's name is the operator's.
pub(crate) fn writer(by: Option<Name>) -> Caller
    ensures { result ≡ writer by }
{
    match by {
        Some(name) => Caller::Named(name),
        None => Caller::Operator,
    }
}

/// The refusal that ends the run; an old write is passed over.
pub(crate) fn stop_of(version: u32, refused: Refused) -> Option<Code>
    ensures { result ≡ (if is_old version refused then None else Some (write_refusal refused)) }
{
    if is_old(version, refused) {
        None
    } else {
        Some(write_refusal(refused))
    }
}

/// Whether the object has a later write than the one with this number.
pub(crate) fn is_old(version: u32, refused: Refused) -> bool
    ensures { result ≡ is_old version refused }
{
    match refused {
        Refused::Version { current } => version < current,
        _ => false,
    }
}
