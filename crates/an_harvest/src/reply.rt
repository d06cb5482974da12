ghost use Rattle.std.specs.Prelude.{◌≡◌, ◌⊎◌, ◌+◌, ◌≤◌, drop, length, option_map, take, Err};
ghost use Rattle.std.specs.Prelude.{IfOk, OnErr};
ghost use Rattle.std.specs.Prelude.{Some, OnOk};
ghost use Rattle.an_base.specs.Faults.{Rises};
ghost use Rattle.an_message.specs.Framing.{head_length};
ghost use Rattle.an_world.specs.Link.{Writes, WritesFront};
ghost use Rattle.an_harvest.specs.Reply.{IsRead, IsReply, Plans, Whole, body_limit, head_limit};
ghost use Rattle.an_harvest.specs.Reply.{get_error, request_bytes, with_body};

use crate::fetch::Got;
use crate::head::{Plan, read_plan};
use crate::request::request_text;
use an_base::Bytes;
use an_message::{HeadFill, fill_head, fill_to, remove_front};
use an_world::{Link, LinkError, write_all};
use std::alloc::{AllocError, Global};
use std::mem::replace;

/// How many bytes a head may have.
const HEAD_LIMIT: usize = 16_384;

/// Why there is no reply.
#[derive(Clone, Copy, Debug, PartialEq, Eq)]
pub enum GetError {
    /// The link failed a read or a write, and has counted it.
    Link,
    /// The input ended before the reply did, or what came is no reply that can be read: its head
    /// isn't one of RFC 9112 within 16,384 bytes and 64 fields, or it hasn't exactly one
    /// Content-Length of 1 to 10 digits, or its body is above 16,777,216 bytes.
    Reply,
    Memory,
}

/// Sends a request for a target, with a token where there is one, and reads one reply to it. What
/// was read and isn't used is held: the bytes after the reply, and after a refusal all of them.
///
/// A reply of the status 204 has no body, whatever its Content-Length is.
pub fn get_reply<L: Link>(
    alloc: Global,
    link: &mut L,
    held: &mut Bytes,
    target: &str,
    token: Option<&str>,
) -> Result<Got, GetError>
    ensures reply { IsReply (request_bytes target.now (option_map (λ t. t.now) token.entry))
        (L.traffic link.old) (L.traffic link.new) held.old held.new result }
    ensures fault { result ≡ Err GetError.Link
        → Rises (L.read_faults link.old) (L.read_faults link.new)
        ⊎ Rises (L.write_faults link.old) (L.write_faults link.new) }
    ensures read_faults_kept { L.read_faults link.old ≤ L.read_faults link.new }
    ensures write_faults_kept { L.write_faults link.old ≤ L.write_faults link.new }
{
    match send(alloc, link, target, token) {
        Ok(()) => read_held(alloc, link, held),
        Err(error) => Err(error),
    }
}

fn send<L: Link>(
    alloc: Global,
    link: &mut L,
    target: &str,
    token: Option<&str>,
) -> Result<(), GetError>
    ensures whole { OnOk result
        (Writes (request_bytes target.now (option_map (λ t. t.now) token.entry))
        (L.traffic link.old) (L.traffic link.new)) }
    ensures front { OnErr result
        (WritesFront (request_bytes target.now (option_map (λ t. t.now) token.entry))
        (L.traffic link.old) (L.traffic link.new)) }
    ensures no_reply { ¬ (result ≡ Err GetError.Reply) }
    ensures fault { result ≡ Err GetError.Link
        → Rises (L.write_faults link.old) (L.write_faults link.new) }
    ensures read_faults_kept { L.read_faults link.old ≤ L.read_faults link.new }
    ensures write_faults_kept { L.write_faults link.old ≤ L.write_faults link.new }
{
    match request_text(alloc, target, token) {
        Ok(request) => match write_all(link, request.as_bytes()) {
            Ok(()) => Ok(()),
            Err(_) => Err(GetError::Link),
        },
        Err(_) => Err(GetError::Memory),
    }
}

fn read_held<L: Link>(alloc: Global, link: &mut L, held: &mut Bytes) -> Result<Got, GetError>
    ensures read { IsRead (L.traffic link.old) (L.traffic link.new) held.old held.new result }
    ensures fault { result ≡ Err GetError.Link
        → Rises (L.read_faults link.old) (L.read_faults link.new) }
    ensures read_faults_kept { L.read_faults link.old ≤ L.read_faults link.new }
    ensures write_faults_kept { L.write_faults link.old ≤ L.write_faults link.new }
{
    let mut bytes = replace(held, Bytes::from_vec(Vec::new(alloc))).into_vec();
    let result = read_reply(alloc, link, &mut bytes);
    *held = Bytes::from_vec(bytes);
    result
}

#[tactic(auto, using(crate::proofs::ReplyLemmas::filling))]
fn read_reply<L: Link>(alloc: Global, link: &mut L, held: &mut Vec<u8>) -> Result<Got, GetError>
    ensures read { IsRead (L.traffic link.old) (L.traffic link.new)
        held.old.items held.new.items result }
    ensures fault { result ≡ Err GetError.Link
        → Rises (L.read_faults link.old) (L.read_faults link.new) }
    ensures read_faults_kept { L.read_faults link.old ≤ L.read_faults link.new }
    ensures write_faults_kept { L.write_faults link.old ≤ L.write_faults link.new }
{
    match fill_head(link, held, HEAD_LIMIT) {
        Ok(HeadFill::Found(end)) => after_head(alloc, link, held, end),
        Ok(HeadFill::Long) => Err(GetError::Reply),
        Ok(HeadFill::Ended) => Err(GetError::Reply),
        Err(error) => Err(get_error(error)),
    }
}

fn get_error(error: LinkError) -> GetError
    ensures { result ≡ get_error error }
{
    match error {
        LinkError::ReadFault => GetError::Link,
        LinkError::Memory => GetError::Memory,
    }
}

/// The reply, whose head ends there.
#[tactic(auto, using(crate::proofs::ReplyLemmas::planning))]
fn after_head<L: Link>(
    alloc: Global,
    link: &mut L,
    held: &mut Vec<u8>,
    end: usize,
) -> Result<Got, GetError>
    requires ends { head_length held.old.items ≡ Some end }
    requires short { end ≤ head_limit }
    requires held { end ≤ length held.old.items }
    ensures read { IsRead (L.traffic link.old) (L.traffic link.new)
        held.old.items held.new.items result }
    ensures fault { result ≡ Err GetError.Link
        → Rises (L.read_faults link.old) (L.read_faults link.new) }
    ensures read_faults_kept { L.read_faults link.old ≤ L.read_faults link.new }
    ensures write_faults_kept { L.write_faults link.old ≤ L.write_faults link.new }
{
    match read_plan(alloc, &held.as_slice()[..end]) {
        Ok(Some(plan)) => take_body(alloc, link, held, end, plan),
        Ok(None) => Err(GetError::Reply),
        Err(_) => Err(GetError::Memory),
    }
}

/// The reply, whose head ends there and says this.
#[tactic(auto, using(crate::proofs::ReplyLemmas::taking))]
fn take_body<L: Link>(
    alloc: Global,
    link: &mut L,
    held: &mut Vec<u8>,
    end: usize,
    plan: Plan,
) -> Result<Got, GetError>
    requires ends { head_length held.old.items ≡ Some end }
    requires short { end ≤ head_limit }
    requires plans { Plans (take end held.old.items) (Some plan) }
    requires within { plan.length ≤ body_limit }
    ensures read { IsRead (L.traffic link.old) (L.traffic link.new)
        held.old.items held.new.items result }
    ensures fault { result ≡ Err GetError.Link
        → Rises (L.read_faults link.old) (L.read_faults link.new) }
    ensures read_faults_kept { L.read_faults link.old ≤ L.read_faults link.new }
    ensures write_faults_kept { L.write_faults link.old ≤ L.write_faults link.new }
{
    match fill_to(link, held, end + plan.length) {
        Ok(true) => match take_got(alloc, held, end, plan) {
            Ok(got) => Ok(got),
            Err(_) => Err(GetError::Memory),
        },
        Ok(false) => Err(GetError::Reply),
        Err(error) => Err(get_error(error)),
    }
}

/// Takes the reply out of the bytes that are held. Its head ends there, and its body is held.
#[tactic(auto, using(crate::proofs::ReplyLemmas::taken))]
fn take_got(alloc: Global, held: &mut Vec<u8>, end: usize, plan: Plan) -> Result<Got, AllocError>
    requires { end + plan.length ≤ length held.old.items }
    ensures taken { IfOk result
        (λ got. with_body plan (drop end held.old.items) ≡ Whole got held.new.items) }
    ensures err { OnErr result (held.new.items ≡ held.old.items) }
{
    let total = end + plan.length;
    let body = Bytes::new(alloc, &held.as_slice()[end..total])?;
    remove_front(held, total);
    Ok(Got {
        status: plan.status,
        body,
    })
}
