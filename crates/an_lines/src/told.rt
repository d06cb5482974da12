ghost use Rattle.std.specs.Prelude.{◌≤◌};
ghost use Rattle.an_base.specs.Faults.{Rises};
ghost use Rattle.an_world.specs.Link.{WritesFront};
ghost use Rattle.an_lines.specs.Status.{ReadsLittle, TellsReport};
ghost use Rattle.an_lines.specs.Told.{IsTold, Tells};

use crate::status::Status;
use an_world::{Link, write_all};

/// Prints the text with which a run ends. Answers how it ends.
pub fn tell<L: Link>(link: &mut L, status: Status, text: &[u8]) -> Status
    ensures tells { Tells (Rises (L.write_faults link.old) (L.write_faults link.new))
        text.now (L.traffic link.old) (L.traffic link.new) status result }

    // Whatever the answer is.
    ensures front { WritesFront text.now (L.traffic link.old) (L.traffic link.new) }
    ensures read_faults_kept { L.read_faults link.old ≤ L.read_faults link.new }
    ensures write_faults_kept { L.write_faults link.old ≤ L.write_faults link.new }
{
    match write_all(link, text) {
        Ok(_) => status,
        Err(_) => Status::WriteFault,
    }
}

/// Prints all that a run has to tell that reads nothing. Answers how it ends.
pub fn tell_report<L: Link>(link: &mut L, status: Status, text: &[u8]) -> Status
    requires told { IsTold status }
    ensures tells { TellsReport (record { status = status; text = text.now })
        (Rises (L.write_faults link.old) (L.write_faults link.new))
        (L.traffic link.old) (L.traffic link.new) result }
    ensures bounded { ReadsLittle (L.traffic link.old) (L.traffic link.new) }
{
    tell(link, status, text)
}
