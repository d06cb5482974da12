//! Trials: an input of any size from a seed, and what comes of it.
ghost use Rattle.an_base.specs.Faults.{Rises};
ghost use Rattle.an_lines.specs.Status.{ReadsLittle, TellsReport};
ghost use Rattle.an_lines.specs.Trials.{trial_report};

use crate::status::Status;
use crate::told::tell_report;
use an_world::Link;
use std::alloc::Global;

/// Plays a trial of so many annotations from a seed, at a store of its own, and prints its nine
/// lines. Nothing is read.
pub fn trial<L: Link>(alloc: Global, link: &mut L, count: u32, seed: u32) -> Status
    ensures tries { TellsReport (trial_report (record { count = count; seed = seed }))
        (Rises (L.write_faults link.old) (L.write_faults link.new))
        (L.traffic link.old) (L.traffic link.new) result }
    ensures bounded { ReadsLittle (L.traffic link.old) (L.traffic link.new) }
{
    match an_trial::trial(alloc, count, seed) {
        Ok(text) => tell_report(link, Status::Done, text.as_slice()),
        Err(_) => Status::Memory,
    }
}
