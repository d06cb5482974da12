ghost use Rattle.std.specs.Prelude.{◌≡◌, ◌+◌, ◌≤◌, drop, take, length, max, Some, Ok, Err, IfOk};
ghost use Rattle.std.specs.Prelude.{OnErr};
ghost use Rattle.an_base.specs.Faults.{Rises};
ghost use Rattle.an_message.specs.Framing.{head_length};
ghost use Rattle.an_http.specs.Head.{head_limit};
ghost use Rattle.an_http.specs.Fields.{body_limit};
ghost use Rattle.an_http.specs.Status.{status_of};
ghost use Rattle.an_http.specs.Requests.{Whole, Plans, with_body};
ghost use Rattle.an_http.specs.Next.{IsNext, at_end};
ghost use Rattle.an_http.specs.declared.next.Next.TheVariants.{Bad};

use crate::buffer::Buffer;
use crate::plan::{Plan, read_plan};
use crate::request::Request;
use crate::status::{Status, status_of};
use an_code::Code;
use an_message::{HeadFill, fill_head, fill_to, remove_front};
use an_world::{Link, LinkError};
use std::alloc::{AllocError, Global};

/// How many bytes a head may have.
const HEAD_LIMIT: usize = 16_384;

/// What comes next over a connection.
#[derive(Debug, Drop, PartialEq, Eq)]
pub enum Next {
    Request(Request),
    /// What came is refused: a reply with this status and this code is due, and then the connection
    /// closes.
    Bad { status: Status, code: Code },
    /// The input ended, and no byte of a request came.
    End,
}

/// Takes the next request from the bytes that the buffer holds, behind which more are read as they
/// are needed. How the input is cut into pieces doesn't matter.
///
/// A head ends at the first CR LF CR LF, has at most 16,384 bytes and 64 fields, and is of the
/// grammar of RFC 9112 to its last byte, where lines may end in LF alone and an empty line may
/// stand first. The body is as long as Content-Length says, at most 1,048,576 bytes.
///
/// What is bad is refused by the first of these codes that fits: `head`, also where the input ends
/// inside a head; `transfer`; `length`; `large`; `length_required`; `body`, where the input ends
/// inside the body. It stays in the buffer.
pub fn next_request<L: Link>(
    alloc: Global,
    link: &mut L,
    buffer: &mut Buffer,
) -> Result<Next, LinkError>
    ensures next { IsNext (L.traffic link.old) (L.traffic link.new) buffer.old buffer.new result }
    ensures most { length buffer.new ≤ max (length buffer.old) (head_limit + body_limit) }
    ensures fault { result ≡ Err LinkError.ReadFault
        → Rises (L.read_faults link.old) (L.read_faults link.new) }
    ensures read_faults_kept { L.read_faults link.old ≤ L.read_faults link.new }
    ensures write_faults_kept { L.write_faults link.old ≤ L.write_faults link.new }
{
    next_in(alloc, link, &mut buffer.bytes)
}

#[tactic(auto, using(crate::proofs::NextLemmas::filling))]
fn next_in<L: Link>(alloc: Global, link: &mut L, held: &mut Vec<u8>) -> Result<Next, LinkError>
    ensures next { IsNext (L.traffic link.old) (L.traffic link.new)
        held.old.items held.new.items result }
    ensures most { length held.new.items ≤ max (length held.old.items) (head_limit + body_limit) }
    ensures fault { result ≡ Err LinkError.ReadFault
        → Rises (L.read_faults link.old) (L.read_faults link.new) }
    ensures read_faults_kept { L.read_faults link.old ≤ L.read_faults link.new }
    ensures write_faults_kept { L.write_faults link.old ≤ L.write_faults link.new }
{
    match fill_head(link, held, HEAD_LIMIT) {
        Ok(HeadFill::Found(end)) => behind_head(alloc, link, held, end),
        Ok(HeadFill::Long) => Ok(refused(Code::Head)),
        Ok(HeadFill::Ended) => Ok(at_end(held.len())),
        Err(error) => Err(error),
    }
}

fn refused(code: Code) -> Next
    ensures { result ≡ Bad (status_of code) code }
{
    Next::Bad {
        status: status_of(code),
        code,
    }
}

/// What so many bytes are at the end of the input, in which no head ends.
fn at_end(count: usize) -> Next
    ensures { result ≡ at_end count }
{
    if count == 0 {
        Next::End
    } else {
        refused(Code::Head)
    }
}

/// The next request, whose head ends there.
#[tactic(auto, using(crate::proofs::NextLemmas::planning))]
fn behind_head<L: Link>(
    alloc: Global,
    link: &mut L,
    held: &mut Vec<u8>,
    end: usize,
) -> Result<Next, LinkError>
    requires ends { head_length held.old.items ≡ Some end }
    requires short { end ≤ head_limit }
    requires held { end ≤ length held.old.items }
    ensures next { IsNext (L.traffic link.old) (L.traffic link.new)
        held.old.items held.new.items result }
    ensures most { length held.new.items ≤ max (length held.old.items) (head_limit + body_limit) }
    ensures fault { result ≡ Err LinkError.ReadFault
        → Rises (L.read_faults link.old) (L.read_faults link.new) }
    ensures read_faults_kept { L.read_faults link.old ≤ L.read_faults link.new }
    ensures write_faults_kept { L.write_faults link.old ≤ L.write_faults link.new }
{
    match read_plan(alloc, &held.as_slice()[..end]) {
        Ok(Ok(plan)) => take_body(alloc, link, held, end, plan),
        Ok(Err(refusal)) => Ok(refused(refusal)),
        Err(_) => Err(LinkError::Memory),
    }
}

/// The next request, whose head ends there and says this.
#[tactic(auto, using(crate::proofs::NextLemmas::taking))]
fn take_body<L: Link>(
    alloc: Global,
    link: &mut L,
    held: &mut Vec<u8>,
    end: usize,
    plan: Plan,
) -> Result<Next, LinkError>
    requires ends { head_length held.old.items ≡ Some end }
    requires short { end ≤ head_limit }
    requires held { end ≤ length held.old.items }
    requires plans { Plans (take end held.old.items) (Ok plan) }
    requires within { plan.length ≤ body_limit }
    ensures next { IsNext (L.traffic link.old) (L.traffic link.new)
        held.old.items held.new.items result }
    ensures most { length held.new.items ≤ max (length held.old.items) (head_limit + body_limit) }
    ensures fault { result ≡ Err LinkError.ReadFault
        → Rises (L.read_faults link.old) (L.read_faults link.new) }
    ensures read_faults_kept { L.read_faults link.old ≤ L.read_faults link.new }
    ensures write_faults_kept { L.write_faults link.old ≤ L.write_faults link.new }
{
    match fill_to(link, held, end + plan.length) {
        Ok(true) => match take_request(alloc, held, end, plan) {
            Ok(request) => Ok(Next::Request(request)),
            Err(_) => Err(LinkError::Memory),
        },
        Ok(false) => Ok(refused(Code::Body)),
        Err(error) => Err(error),
    }
}

/// Takes the request out of the bytes that are held. Its head ends there, and its body is held.
#[tactic(auto, using(crate::proofs::TakeLemmas::taking))]
fn take_request(
    alloc: Global,
    held: &mut Vec<u8>,
    end: usize,
    plan: Plan,
) -> Result<Request, AllocError>
    requires { end + plan.length ≤ length held.old.items }
    ensures taken { IfOk result
        (λ r. with_body plan (drop end held.old.items) ≡ Whole r held.new.items) }
    ensures within { length held.new.items ≤ length held.old.items }
    ensures err { OnErr result (held.new.items ≡ held.old.items) }
{
    let total = end + plan.length;
    let request = plan.with_body(alloc, &held.as_slice()[end..])?;
    remove_front(held, total);
    Ok(request)
}
