ghost use Rattle.std.specs.Prelude.{◌≡◌, ◌<◌, ◌≤◌, ◌||◌, length, max, nat_le, true, false};
ghost use Rattle.std.specs.Prelude.{None};
ghost use Rattle.an_http.specs.Replies.{reply_bytes};
ghost use Rattle.an_session.specs.Due.{Ask};
ghost use Rattle.an_session.specs.Session.{line};
ghost use Rattle.an_session.specs.Trail.{Goes, is_head, bad_reply};
ghost use Rattle.an_session.specs.Turn.{TellsMemory, IsPut, IsServed, IsMet, Turns, most};

use crate::ended::Ended;
use crate::service::Service;
use an_code::Code;
use an_http::{
    Allow, Buffer, LinkError, Method, Next, PutError, Reply, Request, next_request,
    put_memory_reply, put_reply, refusal_reply,
};
use an_world::Link;
use std::alloc::Global;

/// Reads what comes next and writes the reply to it, where so many replies are left. Answers why
/// the connection ends, if it does.
pub(crate) fn turn<L: Link, C, S: Service<C>>(
    alloc: Global,
    link: &mut L,
    buffer: &mut Buffer,
    service: &mut S,
    context: &C,
    left: u32,
) -> Option<Ended>
    ensures turns { Goes S.stands (Turns (S.rules context.now) left result
        (line (L.traffic link.old) (L.read_faults link.old) (L.write_faults link.old))
        (line (L.traffic link.new) (L.read_faults link.new) (L.write_faults link.new))
        buffer.old buffer.new) service.old service.new }
    ensures kept { S.kept service.old service.new }
    ensures more { result ≡ None → 1 < left }
    ensures most { length buffer.new ≤ max (length buffer.old) most }
    ensures read_faults_kept { L.read_faults link.old ≤ L.read_faults link.new }
    ensures write_faults_kept { L.write_faults link.old ≤ L.write_faults link.new }
{
    match next_request(alloc, link, buffer) {
        Ok(next) => serve_next(alloc, link, service, context, &next, left),
        Err(LinkError::ReadFault) => Some(Ended::ReadFault),
        Err(LinkError::Memory) => Some(out_of_memory(link)),
    }
}

/// Writes the reply to what came next.
#[tactic(auto, using(crate::proofs::TurnLemmas::no_more))]
fn serve_next<L: Link, C, S: Service<C>>(
    alloc: Global,
    link: &mut L,
    service: &mut S,
    context: &C,
    next: &Next,
    left: u32,
) -> Option<Ended>
    ensures met { Goes S.stands (IsMet (S.rules context.now) left next.now result
        (line (L.traffic link.old) (L.read_faults link.old) (L.write_faults link.old))
        (line (L.traffic link.new) (L.read_faults link.new) (L.write_faults link.new)))
        service.old service.new }
    ensures kept { S.kept service.old service.new }
    ensures more { result ≡ None → 1 < left }
    ensures read_faults_kept { L.read_faults link.old ≤ L.read_faults link.new }
    ensures write_faults_kept { L.write_faults link.old ≤ L.write_faults link.new }
{
    match next {
        Next::Request(request) => serve_request(alloc, link, service, context, request, left),
        Next::Bad { code, .. } => serve_refusal(alloc, link, *code),
        Next::End => Some(Ended::Closed),
    }
}

/// Has the request answered, and writes the reply.
#[tactic(auto, using(crate::proofs::TurnLemmas::more_left))]
fn serve_request<L: Link, C, S: Service<C>>(
    alloc: Global,
    link: &mut L,
    service: &mut S,
    context: &C,
    request: &Request,
    left: u32,
) -> Option<Ended>
    ensures served { Goes S.stands (IsServed (S.rules context.now)
        (Ask request.now (request.now.close || nat_le left 1)) result
        (line (L.traffic link.old) (L.read_faults link.old) (L.write_faults link.old))
        (line (L.traffic link.new) (L.read_faults link.new) (L.write_faults link.new)))
        service.old service.new }
    ensures kept { S.kept service.old service.new }
    ensures more { result ≡ None → 1 < left }
    ensures read_faults_kept { L.read_faults link.old ≤ L.read_faults link.new }
    ensures write_faults_kept { L.write_faults link.old ≤ L.write_faults link.new }
{
    match service.answer(alloc, context, request) {
        Ok(reply) => {
            let last = is_last(request, left);
            put(alloc, link, &reply, is_head(request), last)
        }
        Err(_) => Some(out_of_memory(link)),
    }
}

/// Whether the connection closes behind the reply, where so many are left.
fn is_last(request: &Request, left: u32) -> bool
    ensures { result ≡ (request.now.close || nat_le left 1) }
{
    request.close || left <= 1
}

fn is_head(request: &Request) -> bool
    ensures { result ≡ is_head request.now }
{
    match request.method {
        Some(Method::Head) => true,
        _ => false,
    }
}

/// Writes the reply to what is refused before it is a request.
fn serve_refusal<L: Link>(alloc: Global, link: &mut L, refusal: Code) -> Option<Ended>
    ensures put { IsPut (reply_bytes (bad_reply refusal) false true) true result
        (line (L.traffic link.old) (L.read_faults link.old) (L.write_faults link.old))
        (line (L.traffic link.new) (L.read_faults link.new) (L.write_faults link.new)) }
    ensures read_faults_kept { L.read_faults link.old ≤ L.read_faults link.new }
    ensures write_faults_kept { L.write_faults link.old ≤ L.write_faults link.new }
{
    match refusal_reply(alloc, Allow::Absent, refusal) {
        Ok(reply) => put(alloc, link, &reply, false, true),
        Err(_) => Some(out_of_memory(link)),
    }
}

/// Writes a reply, which is the last of its connection or not. Answers why the connection ends, if
/// it does.
fn put<L: Link>(
    alloc: Global,
    link: &mut L,
    reply: &Reply,
    head_only: bool,
    last: bool,
) -> Option<Ended>
    ensures put { IsPut (reply_bytes reply.now head_only last) last result
        (line (L.traffic link.old) (L.read_faults link.old) (L.write_faults link.old))
        (line (L.traffic link.new) (L.read_faults link.new) (L.write_faults link.new)) }
    ensures read_faults_kept { L.read_faults link.old ≤ L.read_faults link.new }
    ensures write_faults_kept { L.write_faults link.old ≤ L.write_faults link.new }
{
    match put_reply(alloc, link, reply, head_only, last) {
        Ok(()) => if last { Some(Ended::Closed) } else { None },
        Err(PutError::WriteFault) => Some(Ended::WriteFault),
        Err(PutError::Memory) => Some(out_of_memory(link)),
    }
}

/// Writes the reply that memory ran out. The connection ends whether or not that could be written.
#[tactic(auto, using(crate::proofs::TurnLemmas::tells_memory))]
fn out_of_memory<L: Link>(link: &mut L) -> Ended
    ensures memory { result ≡ Ended.Memory }
    ensures tells { TellsMemory
        (line (L.traffic link.old) (L.read_faults link.old) (L.write_faults link.old))
        (line (L.traffic link.new) (L.read_faults link.new) (L.write_faults link.new)) }
    ensures read_faults_kept { L.read_faults link.old ≤ L.read_faults link.new }
    ensures write_faults_kept { L.write_faults link.old ≤ L.write_faults link.new }
{
    let _ = put_memory_reply(link);
    Ended::Memory
}
