ghost use Rattle.std.specs.Prelude.{◌≡◌, ◌≤◌, IfOk, IsSome, IsTrue, OnErr};
ghost use Rattle.an_base.specs.Faults.{Rises};
ghost use Rattle.an_lines.specs.Import.{import_lines, imported_of, report_of, start};
ghost use Rattle.an_lines.specs.ImportEnds.{Imports, LeavesAll, LeavesFront};
ghost use Rattle.an_lines.specs.Shown.{shown_import};
ghost use Rattle.an_lines.specs.Split.{lines_of};
ghost use Rattle.an_lines.specs.Status.{IsUnfailing, ReadsLittle};

use crate::counts::{Counts, NO_COUNTS, counts_line};
use crate::import_line::import_line;
use crate::input::Input;
use crate::lines::{INPUT_LIMIT, Report};
use crate::split::first_line;
use crate::status::Status;
use crate::stop::{Stop, TOO_LARGE, refusal_line};
use crate::told::tell;
use an_keep::{KeepError, Keeper};
use an_shelf::Desk;
use an_world::{Link, LinkError, read_to};
use std::alloc::{AllocError, Global};

/// How many lines were applied, and where they stop, if they do.
#[derive(Clone, Copy)]
struct Imported {
    counts: Counts,
    stop: Option<Stop>,
}

/// Reads an input of write lines to its end, or to one byte beyond what an input may have, and
/// applies them to a store, with one commit for each line that is accepted. The first line that is
/// refused and isn't old ends the run, and the lines before it stay done. An input of more than
/// 268,435,456 bytes is refused before its first line.
pub fn import<L: Link, K: Keeper>(alloc: Global, link: &mut L, desk: &mut Desk<K>) -> Status
    ensures imports { Imports
        (Rises (L.read_faults link.old) (L.read_faults link.new))
        (Rises (L.write_faults link.old) (L.write_faults link.new))
        (Rises desk.old.faults desk.new.faults)
        (L.traffic link.old) (L.traffic link.new) desk.old.state desk.new.state result }
    ensures bounded { ReadsLittle (L.traffic link.old) (L.traffic link.new) }
    ensures faults_kept { desk.old.faults ≤ desk.new.faults }

    // No keeper begins to tell its cells.
    ensures told { IsSome desk.new.told → IsSome desk.old.told }

    // Over a link that never fails.
    ensures sure { IsTrue L.is_sure → IsUnfailing result }
{
    match read_to(alloc, link, INPUT_LIMIT + 1) {
        Ok(input) => match import_input(alloc, desk, input) {
            Ok(report) => tell(link, report.status, report.text.as_slice()),
            Err(error) => match error {
                KeepError::Failed => {
                    tell(link, Status::KeeperFailed, "keeper failed\n".as_bytes())
                }
                KeepError::Memory => Status::Memory,
            },
        },
        Err(error) => match error {
            LinkError::ReadFault => tell(link, Status::ReadFault, "read failed\n".as_bytes()),
            LinkError::Memory => Status::Memory,
        },
    }
}

/// What comes of an input.
fn import_input<K: Keeper>(
    alloc: Global,
    desk: &mut Desk<K>,
    input: Vec<u8>,
) -> Result<Report, KeepError>
    ensures all { IfOk result (λ r. LeavesAll desk.old.state input.items
        r.status r.text.items desk.new.state) }
    ensures front { OnErr result (LeavesFront desk.old.state input.items desk.new.state) }
    ensures counted { result ≡ Err KeepError.Failed
        → Rises desk.old.faults desk.new.faults }
    ensures faults_kept { desk.old.faults ≤ desk.new.faults }
    ensures told { IsSome desk.new.told → IsSome desk.old.told }
{
    let imported = import_whole(alloc, desk, input)?;
    Ok(import_report(alloc, imported)?)
}

/// Applies the lines of an input that isn't too large.
#[tactic(auto, unfolding(crate::specs::Import::imported_of))]
fn import_whole<K: Keeper>(
    alloc: Global,
    desk: &mut Desk<K>,
    input: Vec<u8>,
) -> Result<Imported, KeepError>
    ensures lines { IfOk result (λ i. shown_import desk.new.state i
        ≡ imported_of desk.old.state input.items) }
    ensures front { OnErr result (LeavesFront desk.old.state input.items desk.new.state) }
    ensures counted { result ≡ Err KeepError.Failed
        → Rises desk.old.faults desk.new.faults }
    ensures faults_kept { desk.old.faults ≤ desk.new.faults }
    ensures told { IsSome desk.new.told → IsSome desk.old.told }
{
    if input.len() > INPUT_LIMIT {
        return Ok(Imported {
            counts: NO_COUNTS,
            stop: Some(TOO_LARGE),
        });
    }
    import_lines(alloc, desk, input)
}

/// Applies all lines of an input.
fn import_lines<K: Keeper>(
    alloc: Global,
    desk: &mut Desk<K>,
    input: Vec<u8>,
) -> Result<Imported, KeepError>
    ensures lines { IfOk result (λ i. shown_import desk.new.state i
        ≡ import_lines (lines_of input.items) 1 (start desk.old.state)) }
    ensures front { OnErr result (LeavesFront desk.old.state input.items desk.new.state) }
    ensures counted { result ≡ Err KeepError.Failed
        → Rises desk.old.faults desk.new.faults }
    ensures faults_kept { desk.old.faults ≤ desk.new.faults }
    ensures told { IsSome desk.new.told → IsSome desk.old.told }
{
    let mut counts = NO_COUNTS;
    let mut number = 1;
    let mut left = Input::new(input);
    'lines: while let Some((line, taken)) = first_line(left.as_slice()) {
        match import_line(alloc, desk, counts, line)? {
            Ok(more) => counts = more,
            Err(why) => {
                return Ok(Imported {
                    counts,
                    stop: Some(Stop { line: number, why }),
                });
            }
        }
        left.pass(taken);
        number += 1;
    }
    Ok(Imported { counts, stop: None })
}

/// The status of an import, and what is printed.
fn import_report(alloc: Global, imported: Imported) -> Result<Report, AllocError>
    ensures { IfOk result (λ r. record { status = r.status; text = r.text.items }
        ≡ report_of imported.counts imported.stop) }
{
    match imported.stop {
        Some(stop) => {
            let text = refusal_line(alloc, stop)?;
            Ok(Report {
                status: Status::Refused,
                text: text.into_bytes(),
            })
        }
        None => {
            let text = counts_line(alloc, imported.counts)?;
            Ok(Report {
                status: Status::Done,
                text: text.into_bytes(),
            })
        }
    }
}
