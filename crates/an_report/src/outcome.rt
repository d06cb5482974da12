ghost use Rattle.std.specs.Prelude.{◌≡◌, ◌≤◌, ◌↔◌, IfOk, IsTrue, length, take};
ghost use Rattle.an_report.specs.Report.{IsAsDue};

use std::io;

/// How many bytes are shown from the first that differs on.
const SHOWN: usize = 80;

/// What a case comes to.
#[derive(Drop)]
pub struct Outcome {
    pub status: u8,
    /// The whole output of a run, or the rows, each an argument before its answer.
    pub output: Vec<u8>,
}

/// Answers whether the case of this name came out as it is due, and prints what did not.
pub fn report<R: Print>(rt: &R, name: &str, due: &Outcome, found: &Outcome) -> io::Result<bool>
    ensures right { IfOk result (λ right. IsTrue right ↔ IsAsDue due.now found.now) }
{
    if is_as_due(due, found) {
        return Ok(true);
    }
    print_difference(rt, name, due, found)?;
    Ok(false)
}

fn is_as_due(due: &Outcome, found: &Outcome) -> bool
    ensures { IsTrue result ↔ IsAsDue due.now found.now }
{
    due.status == found.status && due.output.as_slice() == found.output.as_slice()
}

fn print_difference<R: Print>(
    rt: &R,
    name: &str,
    due: &Outcome,
    found: &Outcome,
) -> io::Result<()> {
    println!(rt; "wrong: {name}")?;
    if due.status != found.status {
        println!(rt; "  status {} is due, and {} came", due.status, found.status)?;
    }
    print_outputs(rt, due.output.as_slice(), found.output.as_slice())
}

fn print_outputs<R: Print>(rt: &R, due: &[u8], found: &[u8]) -> io::Result<()> {
    if due == found {
        return Ok(());
    }
    let at = first_difference(due, found);
    println!(rt; "  from byte {at} of the output on")?;
    println!(rt; "    is due {}", front(&due[at..]).escape_ascii())?;
    println!(rt; "    and came {}", front(&found[at..]).escape_ascii())
}

/// Where the first byte stands that differs, or where the shorter ends.
#[tactic(auto, using(std::proofs::lemmas::List::take_more_same))]
fn first_difference(due: &[u8], found: &[u8]) -> usize
    ensures due { result ≤ length due.now }
    ensures found { result ≤ length found.now }
    ensures same { take result due.now ≡ take result found.now }
{
    let mut at = 0;
    while at < due.len() && at < found.len() && due[at] == found[at] {
        at += 1;
    }
    at
}

fn front(bytes: &[u8]) -> &[u8] {
    &bytes[..bytes.len().min(SHOWN)]
}

/// How many cases are wrong with one case more.
pub fn wrong_with(wrong: usize, is_right: bool) -> usize
    ensures wrong { (result ≡ 0) ↔ ((wrong ≡ 0) × IsTrue is_right) }
{
    if is_right {
        wrong
    } else {
        wrong.saturating_add(1)
    }
}
