ghost use Rattle.std.specs.Prelude.{◌≡◌, ◌≤◌, ◌++◌, IsTrue, IsOk, Err, OnOk, OnErr, IfOk};
ghost use Rattle.an_base.specs.Faults.{Rises};
ghost use Rattle.an_world.specs.Link.{Writes, WritesFront};
ghost use Rattle.an_http.specs.Replies.{first_lines, last_lines, content_of, reply_bytes};
ghost use Rattle.an_http.specs.Replies.{memory_reply};

use crate::reply::{Reply, is_empty, push_first_lines, push_last_lines};
use an_world::{Link, LinkFault, write_all};
use std::alloc::{AllocError, Global};

/// Why a reply could not be written.
#[derive(Clone, Copy, Debug, PartialEq, Eq)]
pub enum PutError {
    /// The link failed a write, and has counted it. A front of the reply was written.
    WriteFault,
    /// Memory ran out. Nothing was written.
    Memory,
}

/// Writes a reply; of a reply to HEAD the head alone. `close` tells that the connection closes
/// behind it.
pub fn put_reply<L: Link>(
    alloc: Global,
    link: &mut L,
    reply: &Reply,
    head_only: bool,
    close: bool,
) -> Result<(), PutError>
    ensures whole { OnOk result (Writes (reply_bytes reply.now head_only close)
        (L.traffic link.old) (L.traffic link.new)) }
    ensures front { result ≡ Err PutError.WriteFault
        → WritesFront (reply_bytes reply.now head_only close)
        (L.traffic link.old) (L.traffic link.new) }
    ensures fault { result ≡ Err PutError.WriteFault
        → Rises (L.write_faults link.old) (L.write_faults link.new) }
    ensures memory { result ≡ Err PutError.Memory → link.new ≡ link.old }
    ensures read_faults_kept { L.read_faults link.old ≤ L.read_faults link.new }
    ensures write_faults_kept { L.write_faults link.old ≤ L.write_faults link.new }
{
    let content = content_of(reply, head_only);
    let (joined, rest) = content.split_at(joined_count(content.len()));
    match head_with(alloc, reply, close, joined) {
        Ok(front) => match write_both(link, front.as_slice(), rest) {
            Ok(()) => Ok(()),
            Err(_) => Err(PutError::WriteFault),
        },
        Err(_) => Err(PutError::Memory),
    }
}

/// Writes the reply for want of memory, `503` with the code `memory`, behind which the connection
/// closes. Takes no memory.
pub fn put_memory_reply<L: Link>(link: &mut L) -> Result<(), LinkFault>
    ensures whole { OnOk result
        (Writes memory_reply (L.traffic link.old) (L.traffic link.new)) }
    ensures front { WritesFront memory_reply (L.traffic link.old) (L.traffic link.new) }
    ensures fault { OnErr result (Rises (L.write_faults link.old) (L.write_faults link.new)) }
    ensures sure { IsTrue L.is_sure → IsOk result }
    ensures read_faults_kept { L.read_faults link.old ≤ L.read_faults link.new }
    ensures write_faults_kept { L.write_faults link.old ≤ L.write_faults link.new }
{
    write_all(
        link,
        b"HTTP/1.1 503 Service Unavailable\r\n\
          Access-Control-Allow-Origin: *\r\n\
          Connection: close\r\n\
          Content-Length: 18\r\n\
          Content-Type: application/json\r\n\
          \r\n\
          {\"error\":\"memory\"}",
    )
}

/// The longest content that is copied behind its head, so that one call writes both. A second
/// system call costs more than the copy of so many bytes; the copy of a longer content costs more
/// than the call, and needs as much memory again.
const MOST_JOINED: usize = 65_536;

/// How many bytes of a content are copied behind the head: all or none.
fn joined_count(count: usize) -> usize
    ensures within { result ≤ count }
{
    if count <= MOST_JOINED { count } else { 0 }
}

/// How many bytes are taken at once for a head, which few heads go beyond.
const HEAD_ROOM: usize = 512;

/// The bytes of a reply's head, and these bytes behind them.
fn head_with(alloc: Global, reply: &Reply, close: bool, bytes: &[u8]) -> Result<Vec<u8>, AllocError>
    ensures bytes { IfOk result
        (λ v. v.items ≡ first_lines reply.now ++ (last_lines reply.now close ++ bytes.now)) }
{
    let out = Vec::with_capacity(alloc, bytes.len().saturating_add(HEAD_ROOM))?;
    let out = push_first_lines(out, reply)?;
    let mut out = push_last_lines(out, reply, close)?;
    out.extend_from_slice(bytes)?;
    Ok(out)
}

/// Writes the first bytes, and the next ones behind them. Takes no memory.
fn write_both<L: Link>(link: &mut L, first: &[u8], next: &[u8]) -> Result<(), LinkFault>
    ensures whole { OnOk result
        (Writes (first.now ++ next.now) (L.traffic link.old) (L.traffic link.new)) }

    // Whatever the answer is, a front of the bytes was written.
    ensures front { WritesFront (first.now ++ next.now)
        (L.traffic link.old) (L.traffic link.new) }
    ensures counted { OnErr result (Rises (L.write_faults link.old) (L.write_faults link.new)) }
    ensures read_faults_kept { L.read_faults link.old ≤ L.read_faults link.new }
    ensures write_faults_kept { L.write_faults link.old ≤ L.write_faults link.new }
{
    write_all(link, first)?;
    write_all(link, next)
}

fn content_of(reply: &Reply, head_only: bool) -> &[u8]
    ensures { result.now ≡ content_of reply.now head_only }
{
    if head_only || is_empty(reply.status) {
        return &[];
    }
    reply.body.as_slice()
}
