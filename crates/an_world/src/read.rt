ghost use Rattle.std.specs.Prelude.{◌≡◌, ◌+◌, ◌<◌, ◌≤◌, length, Err, IfOk, OnErr};
ghost use Rattle.an_base.specs.Faults.{Rises};
ghost use Rattle.an_world.specs.Link.{Reads, ReadsOn, ReadsAtMost, IsAtEnd};

use crate::link::{Link, LinkFault};
use std::alloc::{AllocError, Global};

/// Why bytes could not be read from a link.
#[derive(Clone, Copy, Debug, PartialEq, Eq)]
pub enum LinkError {
    /// The link failed a read, and has counted it.
    ReadFault,
    /// Memory ran out.
    Memory,
}

impl From<AllocError> for LinkError {
    ghost use Rattle.an_world.specs.declared.read.LinkError.TheVariants.{Memory};

    ghost from_gives = { λ _ error. error ≡ Memory };

    fn from(_error: AllocError) -> LinkError {
        LinkError::Memory
    }
}

impl From<LinkFault> for LinkError {
    ghost use Rattle.an_world.specs.declared.read.LinkError.TheVariants.{ReadFault};

    ghost from_gives = { λ _ error. error ≡ ReadFault };

    fn from(_fault: LinkFault) -> LinkError {
        LinkError::ReadFault
    }
}

/// How many bytes one read of `read_to` asks for at most.
const READ_SIZE: usize = 65_536;

/// Reads once, into `room`, and puts what came behind the bytes that are held. Answers how many
/// bytes came: 0 at the end of the input alone. Whatever it answers, no byte that was read is lost.
pub fn read_on<L: Link>(
    link: &mut L,
    room: &mut [u8],
    held: &mut Vec<u8>,
) -> Result<usize, LinkError>
    requires { 0 < length room.old }
    ensures err { OnErr result (held.new.items ≡ held.old.items) }
    ensures adds { IfOk result (λ n. length held.new.items ≡ length held.old.items + n) }
    ensures end { IfOk result (λ count. count ≡ 0 → IsAtEnd (L.traffic link.new)) }

    // Whatever the answer is.
    ensures reads { ReadsOn (L.traffic link.old) (L.traffic link.new)
        held.old.items held.new.items }
    ensures within { length held.new.items ≤ length held.old.items + length room.old }
    ensures fault { result ≡ Err LinkError.ReadFault
        → Rises (L.read_faults link.old) (L.read_faults link.new) }
    ensures read_faults_kept { L.read_faults link.old ≤ L.read_faults link.new }
    ensures write_faults_kept { L.write_faults link.old ≤ L.write_faults link.new }
{
    held.reserve(room.len())?;
    let count = link.read(room)?;
    match held.extend_from_slice(&room[..count]) {
        Ok(()) => Ok(count),
        Err(_) => unreachable!(),
    }
}

#[tactic(auto, using(crate::proofs::ReadSteps::read_steps))]
/// Reads a link to its end, or to as many bytes as `most`: where as many came, more may be left.
/// After an error what was read is lost.
pub fn read_to<L: Link>(alloc: Global, link: &mut L, most: usize) -> Result<Vec<u8>, LinkError>
    ensures bytes { IfOk result (λ v. Reads v.items (L.traffic link.old) (L.traffic link.new)) }
    ensures within { IfOk result (λ v. length v.items ≤ most) }
    ensures whole { IfOk result (λ v. length v.items < most → IsAtEnd (L.traffic link.new)) }

    // Whatever the answer is.
    ensures at_most { ReadsAtMost most (L.traffic link.old) (L.traffic link.new) }
    ensures fault { result ≡ Err LinkError.ReadFault
        → Rises (L.read_faults link.old) (L.read_faults link.new) }
    ensures read_faults_kept { L.read_faults link.old ≤ L.read_faults link.new }
    ensures write_faults_kept { L.write_faults link.old ≤ L.write_faults link.new }
{
    let mut input = Vec::new(alloc);
    let mut room = zeros(alloc, READ_SIZE)?;
    let room = room.as_mut_slice();
    'pieces: while input.len() < most {
        let size = room.len().min(most - input.len());
        if read_on(link, &mut room[..size], &mut input)? == 0 {
            return Ok(input);
        }
    }
    Ok(input)
}

/// So many bytes, each of them 0.
fn zeros(alloc: Global, size: usize) -> Result<Vec<u8>, AllocError>
    ensures { IfOk result (λ v. length v.items ≡ size) }
{
    vec![in alloc; 0; size]
}
