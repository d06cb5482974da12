//! Rows of harvests, of pages as a row gives them and of the bytes of replies. In such bytes `\r`
//! and `\n` stand for the two signs that end a line.
use crate::http_calls::with_line_ends;
use crate::numbers::number;
use crate::rows::{RowError, two_parts, two_words};
use an_base::{Bytes, Text};
use an_harvest::{FetchPair, Got, HarvestError, Known, KnownObject, LinkFetch, MapFetch, harvest};
use an_world::MemLink;
use std::alloc::{AllocError, Global};

/// What is harvested of pages, and then, behind `again`, of others from what was found:
/// `BASE | TARGET STATUS BODY | TARGET STATUS BODY | again | TARGET STATUS BODY`. What isn't there
/// is a 404.
pub fn harvest_pages(alloc: Global, argument: &str) -> Result<String, RowError> {
    let (base, rounds) = two_parts(argument)?;
    let mut known = Known::new(alloc);
    for round in rounds.split(" | again | ") {
        match harvest_round(alloc, base, round, &known)? {
            Ok(found) => known = found,
            Err(error) => return refusal_shown(alloc, &error),
        }
    }
    Ok(known_shown(alloc, &known)?)
}

fn harvest_round(
    alloc: Global,
    base: &str,
    round: &str,
    known: &Known,
) -> Result<Result<Known, HarvestError>, RowError> {
    let mut pairs = Vec::new(alloc);
    for part in round.split(" | ") {
        pairs.push(pair_of(alloc, part)?)?;
    }
    let mut fetch = MapFetch::new(pairs, Vec::new(alloc));
    Ok(harvest(alloc, &mut fetch, base, known))
}

/// What is got for a target: `/changes 200 {}`.
fn pair_of(alloc: Global, part: &str) -> Result<FetchPair, RowError> {
    let (target, got) = two_words(part)?;
    let (status, body) = two_words(got)?;
    let got = Got {
        status: number(status)?,
        body: Bytes::new(alloc, body.as_bytes())?,
    };
    Ok(FetchPair {
        target: Text::new(alloc, target)?,
        got,
    })
}

/// What is harvested over a link that has the bytes of replies: `BASE | HTTP/1.1 200 OK\r\n`.
pub fn harvest_replies(alloc: Global, argument: &str) -> Result<String, RowError> {
    let (base, replies) = two_parts(argument)?;
    let replies = with_line_ends(alloc, replies)?;
    let mut fetch = LinkFetch::new(alloc, link_with(alloc, replies.as_str())?, None);
    match harvest(alloc, &mut fetch, base, &Known::new(alloc)) {
        Ok(known) => Ok(known_shown(alloc, &known)?),
        Err(error) => refusal_shown(alloc, &error),
    }
}

fn link_with(alloc: Global, input: &str) -> Result<MemLink, AllocError> {
    let input = Bytes::new(alloc, input.as_bytes())?;
    let (cut, reads, writes) = (Vec::new(alloc), Vec::new(alloc), Vec::new(alloc));
    MemLink::new(alloc, input, cut, reads, writes, 10_000)
}

fn known_shown(alloc: Global, known: &Known) -> Result<String, AllocError> {
    let mut shown = String::new(alloc);
    for object in known.objects() {
        add_object(&mut shown, object)?;
    }
    write!(&mut shown, "{} changes", known.items())?;
    Ok(shown)
}

fn add_object(shown: &mut String, object: &KnownObject) -> Result<(), AllocError> {
    let kind = if object.manifest {
        "Manifest"
    } else {
        "Annotation"
    };
    write!(shown, "{kind} {}, ", object.id.as_str())
}

fn refusal_shown(alloc: Global, error: &HarvestError) -> Result<String, RowError> {
    match error {
        HarvestError::Fetch => Ok(String::from_str(alloc, "no reply")?),
        HarvestError::Status { status } => Ok(format!(in alloc; "status {status}")?),
        HarvestError::Form { target } => Ok(format!(in alloc; "form of {}", target.as_str())?),
        HarvestError::Memory => Err(RowError::Memory),
    }
}
