ghost use Rattle.std.specs.Prelude.{◌≡◌, IfOk, IsTrue};
ghost use Rattle.an_base.specs.Faults.{Rises};
ghost use Rattle.an_state.specs.State.{empty};
ghost use Rattle.an_lines.specs.Find.{play, report_of, report_played};
ghost use Rattle.an_lines.specs.Shown.{shown};
ghost use Rattle.an_lines.specs.Split.{lines_of};
ghost use Rattle.an_lines.specs.Status.{Finds, IsUnfailing, ReadsLittle};

use crate::input::Input;
use crate::split::first_line;
use crate::status::Status;
use crate::stop::{Stop, TOO_LARGE, refusal_line};
use crate::turn::turn;
use an_list::Site;
use an_state::Book;
use an_world::{Link, LinkError, read_to, write_all};
use std::alloc::{AllocError, Global};

/// How many bytes an input may have.
pub(crate) const INPUT_LIMIT: usize = 268_435_456;

/// How the run ends, and what is to be printed.
#[derive(Drop)]
pub(crate) struct Report {
    pub status: Status,
    pub text: Vec<u8>,
}

/// What is to be printed for the lines, and where they stop, if they do.
#[derive(Drop)]
struct Played {
    output: Vec<u8>,
    stop: Option<Stop>,
}

/// Reads an input of lines to its end, or to one byte beyond what an input may have, applies its
/// writes to an empty state, and prints the answer to each of its reads. The first line that is
/// refused and isn't old ends the run. An input of more than 268,435,456 bytes is refused before
/// its first line. Nothing is printed where memory runs out.
#[tactic(auto, using(crate::proofs::StatusLemmas::ends_of_find))]
pub fn find<L: Link>(alloc: Global, link: &mut L, settings: &Site) -> Status
    ensures finds { Finds settings.now
        (Rises (L.read_faults link.old) (L.read_faults link.new))
        (Rises (L.write_faults link.old) (L.write_faults link.new))
        (L.traffic link.old) (L.traffic link.new) result }
    ensures bounded { ReadsLittle (L.traffic link.old) (L.traffic link.new) }

    // Over a link that never fails the whole report is printed, unless memory runs out.
    ensures sure { IsTrue L.is_sure → IsUnfailing result }
{
    match read_to(alloc, link, INPUT_LIMIT + 1) {
        Ok(input) => match report_of(alloc, input, settings) {
            Ok(report) => match write_all(link, report.text.as_slice()) {
                Ok(_) => report.status,
                Err(_) => Status::WriteFault,
            },
            Err(_) => Status::Memory,
        },
        Err(error) => match error {
            LinkError::ReadFault => match write_all(link, "read failed\n".as_bytes()) {
                Ok(_) => Status::ReadFault,
                Err(_) => Status::WriteFault,
            },
            LinkError::Memory => Status::Memory,
        },
    }
}

/// What comes of an input.
#[tactic(auto, unfolding(crate::specs::Find::report_of))]
fn report_of(alloc: Global, input: Vec<u8>, settings: &Site) -> Result<Report, AllocError>
    ensures { IfOk result (λ r. record { status = r.status; text = r.text.items }
        ≡ report_of settings.now input.items) }
{
    if input.len() > INPUT_LIMIT {
        let text = refusal_line(alloc, TOO_LARGE)?;
        return Ok(Report {
            status: Status::Refused,
            text: text.into_bytes(),
        });
    }
    let played = play(alloc, input, settings)?;
    report_played(alloc, played)
}

fn report_played(alloc: Global, played: Played) -> Result<Report, AllocError>
    ensures { IfOk result (λ r. record { status = r.status; text = r.text.items }
        ≡ report_played (shown played) (shown played).stop) }
{
    let Played { output, stop } = played;
    match stop {
        Some(stop) => {
            let text = refusal_line(alloc, stop)?;
            let mut output = output;
            output.extend_from_slice(text.as_bytes())?;
            Ok(Report {
                status: Status::Refused,
                text: output,
            })
        }
        None => Ok(Report {
            status: Status::Done,
            text: output,
        }),
    }
}

/// Plays all lines of an input, from the empty state.
fn play(alloc: Global, input: Vec<u8>, settings: &Site) -> Result<Played, AllocError>
    ensures { IfOk result (λ played. shown played
        ≡ play settings.now (lines_of input.items) 1 empty) }
{
    let mut book = Book::new(alloc);
    let mut output = Vec::new(alloc);
    let mut number = 1;
    let mut left = Input::new(input);
    'lines: while let Some((line, taken)) = first_line(left.as_slice()) {
        match turn(alloc, &mut book, settings, line, &mut output)? {
            Some(why) => {
                return Ok(Played {
                    output,
                    stop: Some(Stop { line: number, why }),
                });
            }
            None => {}
        }
        left.pass(taken);
        number += 1;
    }
    Ok(Played { output, stop: None })
}
