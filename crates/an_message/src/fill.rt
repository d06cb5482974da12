ghost use Rattle.std.specs.Prelude.{◌≡◌, ◌+◌, ◌≤◌, ◌<◌, length, max, Err, IfOk, OnErr};
ghost use Rattle.an_base.specs.Faults.{Rises};
ghost use Rattle.an_world.specs.Link.{ReadsOn, IsAtEnd};
ghost use Rattle.an_message.specs.Fill.{found, IsFilled, IsFull};

use crate::head::head_end;
use an_world::{Link, LinkError, read_on};

/// How many bytes one read asks for at most.
const READ_SIZE: usize = 4_096;

/// What came of waiting for a head.
#[derive(Clone, Copy)]
pub enum HeadFill {
    /// A head of so many bytes ends in what is held.
    Found(usize),
    /// No head ends within the limit.
    Long,
    /// The input ended before a head did.
    Ended,
}

#[tactic(auto, using(crate::proofs::FillLemmas::filling))]
/// Reads until a head ends in what is held, or none can within so many bytes.
pub fn fill_head<L: Link>(
    link: &mut L,
    held: &mut Vec<u8>,
    limit: usize,
) -> Result<HeadFill, LinkError>
    ensures filled { IsFilled limit (L.traffic link.new) held.new.items result }
    ensures reads { ReadsOn (L.traffic link.old) (L.traffic link.new)
        held.old.items held.new.items }
    ensures most { length held.new.items ≤ max (length held.old.items) limit }
    ensures fault { result ≡ Err LinkError.ReadFault
        → Rises (L.read_faults link.old) (L.read_faults link.new) }
    ensures read_faults_kept { L.read_faults link.old ≤ L.read_faults link.new }
    ensures write_faults_kept { L.write_faults link.old ≤ L.write_faults link.new }
{
    let mut from = 0;
    'pieces: loop {
        match head_end(held.as_slice(), from) {
            Some(end) => return Ok(found(limit, end)),
            None => {}
        }
        if held.len() >= limit {
            return Ok(HeadFill::Long);
        }
        // A head may end with the first bytes of the next piece.
        from = held.len().saturating_sub(3);
        let most = limit - held.len();
        match read_piece(link, held, most) {
            Ok(count) => if count == 0 {
                return Ok(HeadFill::Ended);
            },
            Err(error) => return Err(error),
        }
    }
}

fn found(limit: usize, end: usize) -> HeadFill
    ensures { result ≡ found limit end }
{
    if end > limit {
        HeadFill::Long
    } else {
        HeadFill::Found(end)
    }
}

#[tactic(auto, using(crate::proofs::FillLemmas::filling))]
/// Reads until so many bytes are held. Answers whether they are: if not, the input ended.
pub fn fill_to<L: Link>(link: &mut L, held: &mut Vec<u8>, total: usize) -> Result<bool, LinkError>
    ensures full { IsFull (L.traffic link.new) total held.new.items result }
    ensures reads { ReadsOn (L.traffic link.old) (L.traffic link.new)
        held.old.items held.new.items }
    ensures most { length held.new.items ≤ max (length held.old.items) total }
    ensures fault { result ≡ Err LinkError.ReadFault
        → Rises (L.read_faults link.old) (L.read_faults link.new) }
    ensures read_faults_kept { L.read_faults link.old ≤ L.read_faults link.new }
    ensures write_faults_kept { L.write_faults link.old ≤ L.write_faults link.new }
{
    'pieces: while held.len() < total {
        let most = total - held.len();
        match read_piece(link, held, most) {
            Ok(count) => if count == 0 {
                return Ok(false);
            },
            Err(error) => return Err(error),
        }
    }
    Ok(true)
}

/// Reads once, at most so many bytes, and puts them after what is held. Answers how many came.
fn read_piece<L: Link>(link: &mut L, held: &mut Vec<u8>, most: usize) -> Result<usize, LinkError>
    requires { 0 < most }
    ensures err { OnErr result (held.new.items ≡ held.old.items) }
    ensures adds { IfOk result (λ n. length held.new.items ≡ length held.old.items + n) }
    ensures end { IfOk result (λ count. count ≡ 0 → IsAtEnd (L.traffic link.new)) }
    ensures reads { ReadsOn (L.traffic link.old) (L.traffic link.new)
        held.old.items held.new.items }
    ensures within { length held.new.items ≤ length held.old.items + most }
    ensures fault { result ≡ Err LinkError.ReadFault
        → Rises (L.read_faults link.old) (L.read_faults link.new) }
    ensures read_faults_kept { L.read_faults link.old ≤ L.read_faults link.new }
    ensures write_faults_kept { L.write_faults link.old ≤ L.write_faults link.new }
{
    let mut room = [0u8; 4096];
    let size = most.min(READ_SIZE);
    read_on(link, &mut room[..size], held)
}
