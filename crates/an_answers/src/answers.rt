ghost use Rattle.std.specs.Prelude.{◌≡◌, ◌+◌, ◌≤◌, ℕ, List, Result, IfOk, OnOk};
ghost use Rattle.std.specs.Prelude.{string_bytes};
ghost use Rattle.an_base.specs.Outcome.{Gives};
ghost use Rattle.an_list.specs.Cost.{Takes};
ghost use Rattle.an_policy.specs.Audience.{identity};
ghost use Rattle.an_state.specs.View.{view_of, view_by};
ghost use Rattle.an_http.specs.Errors.{refusal_reply};
ghost use Rattle.an_answers.specs.Answer.{with_iris, shown_of, shown_reply, shown_with};
ghost use Rattle.an_answers.specs.Answer.{answer_of, query_answer, object_iri, bool_text};
ghost use Rattle.an_answers.specs.Answer.{write_text, write_body, write_status};
ghost use Rattle.an_answers.specs.Answer.{write_answer};
ghost use Rattle.an_answers.specs.Cost.{cost_of, shown_cost};

use crate::refused::write_refusal;
use an_anchor::{anchors, orphans};
use an_base::{Bytes, Name, Prefer, Steps};
use an_code::Code;
use an_complete::complete;
use an_gather::{collection, gather_complete, gather_search};
use an_http::{Allow, Extra, Media, Reply, Status, refusal_reply};
use an_iri::{manifest_iri, note_iri, reader_iri};
use an_list::{ReadError, Site};
use an_machine::{Refused, WriteReply};
use an_pages::{annotation, canvas_page, container, container_page, manifest_answer};
use an_policy::{Caller, Who};
use an_routes::Read;
use an_search::search;
use an_state::{Look, Object};
use an_stream::{changes, changes_page};
use std::alloc::{AllocError, Global};
use std::sync::ledger::Ledger;

/// The answer to a read, from what the caller may read alone: 401 where nobody has its token or
/// name, what is shown, or why it isn't. Containers alone ask what is preferred. What the caller
/// may read tells the steps too.
pub fn answer<T: Look, L: Ledger>(
    alloc: Global,
    look: &T,
    site: &Site,
    caller: &Caller,
    prefer: Prefer,
    read: &Read,
    steps: &mut Steps<L>,
) -> Result<Reply, AllocError>
    ensures answer { IfOk result (λ reply. reply ≡ answer_of site.now
        (view_by (T.state look.now) caller.now) prefer read.now) }
    ensures steps { OnOk result (steps.new ≡ steps.old + cost_of site.now
        (view_by (T.state look.now) caller.now) prefer read.now) }
    ensures steps_most { steps.new ≤ steps.old + cost_of site.now
        (view_by (T.state look.now) caller.now) prefer read.now }
    ensures steps_least { steps.old ≤ steps.new }
{
    match look.who(caller) {
        Some(who) => {
            let shown = shown_to(alloc, look, site, &who, prefer, read, steps)?;
            shown_reply(alloc, read.methods(), shown)
        }
        None => refusal_reply(alloc, read.methods(), Code::NotSigned),
    }
}

/// The answer to a read whose query is refused; 401 comes before that.
pub fn query_answer<T: Look>(
    alloc: Global,
    look: &T,
    caller: &Caller,
    allow: Allow,
    refusal: Code,
) -> Result<Reply, AllocError>
    ensures answer { IfOk result (λ reply. reply ≡ query_answer
        (view_by (T.state look.now) caller.now) allow refusal) }
{
    match look.who(caller) {
        Some(_) => refusal_reply(alloc, allow, refusal),
        None => refusal_reply(alloc, allow, Code::NotSigned),
    }
}

/// The answer to a write that was decided: the object's IRI and number, or the refusal.
pub fn write_answer(
    alloc: Global,
    site: &Site,
    allow: Allow,
    written: &Result<WriteReply, Refused>,
) -> Result<Reply, AllocError>
    ensures answer { IfOk result (λ reply. reply ≡ write_answer site.now allow written.now) }
{
    match written {
        Ok(reply) => written_reply(alloc, site.base(), allow, reply),
        Err(refused) => refusal_reply(alloc, allow, write_refusal(*refused)),
    }
}

// ---- reads

/// What is shown: a body, what it is, and the further fields of its reply.
#[derive(Debug, Drop)]
pub(crate) struct Shown {
    media: Media,
    extra: Extra,
    body: Bytes,
}

/// The reply with what is shown, or with why it isn't, at a path with these methods.
fn shown_reply(alloc: Global, allow: Allow, shown: Result<Shown, Code>) -> Result<Reply, AllocError>
    ensures { IfOk result (λ reply. reply ≡ shown_reply allow shown) }
{
    match shown {
        Ok(Shown { media, extra, body }) => Ok(Reply {
            status: Status::Ok,
            allow,
            media,
            extra,
            body,
        }),
        Err(refusal) => refusal_reply(alloc, allow, refusal),
    }
}

/// What is shown of what is read, or why it isn't. An annotation is an LDP resource, and a
/// container an LDP container.
fn shown_to<T: Look, L: Ledger>(
    alloc: Global,
    look: &T,
    site: &Site,
    who: &Who<'_>,
    prefer: Prefer,
    read: &Read,
    steps: &mut Steps<L>,
) -> Result<Result<Shown, Code>, AllocError>
    ensures shown { IfOk result (λ shown. shown ≡ shown_of site.now
        (view_of (T.state look.now) (identity who.now)) prefer read.now) }
    ensures steps { OnOk result (steps.new ≡ steps.old + shown_cost site.now
        (view_of (T.state look.now) (identity who.now)) prefer read.now) }
    ensures steps_most { steps.new ≤ steps.old + shown_cost site.now
        (view_of (T.state look.now) (identity who.now)) prefer read.now }
    ensures steps_least { steps.old ≤ steps.new }
{
    match read {
        Read::Manifest { name } => {
            let body = manifest_answer(alloc, look, who, name, site);
            shown_with(Media::Manifest, Extra::Absent, body)
        }
        Read::Note { owner, name } => {
            let body = annotation(alloc, look, who, owner, name, site);
            shown_with(Media::Annotation, Extra::Resource, body)
        }
        Read::Search { manifest, query } => {
            let body = search(alloc, look, who, manifest, query, site, steps);
            shown_with(Media::Search, Extra::Absent, body)
        }
        Read::Complete { manifest, ask } => {
            let body = complete(alloc, look, who, manifest, ask, site, steps);
            shown_with(Media::Search, Extra::Absent, body)
        }
        Read::Canvas {
            manifest,
            canvas,
            region,
            page,
        } => {
            let body = canvas_page(
                alloc, look, who, manifest, *canvas, *region, *page, site, steps,
            );
            shown_with(Media::Manifest, Extra::Absent, body)
        }
        Read::Container { manifest, iris } => {
            let prefer = with_iris(prefer, *iris);
            let body = container(alloc, look, who, manifest, prefer, site, steps);
            shown_with(Media::Annotation, Extra::Container, body)
        }
        Read::ContainerPage {
            manifest,
            page,
            iris,
        } => {
            let body = container_page(alloc, look, who, manifest, *page, *iris, site, steps);
            shown_with(Media::Annotation, Extra::Absent, body)
        }
        Read::Changes => {
            let body = changes(alloc, look, who, site);
            shown_with(Media::Changes, Extra::Absent, body)
        }
        Read::ChangesPage { page } => {
            let body = changes_page(alloc, look, who, *page, site);
            shown_with(Media::Changes, Extra::Absent, body)
        }
        Read::Anchors { owner, name, page } => {
            let body = anchors(alloc, look, who, owner, name, *page, site, steps);
            shown_with(Media::Json, Extra::Absent, body)
        }
        Read::Orphans { manifest, page } => {
            let body = orphans(alloc, look, who, manifest, *page, site, steps);
            shown_with(Media::Json, Extra::Absent, body)
        }
        Read::Collection => {
            let body = collection(alloc, look, who, site);
            shown_with(Media::Manifest, Extra::Absent, body)
        }
        Read::GatherSearch { gather } => {
            let body = gather_search(alloc, look, who, gather, site, steps);
            shown_with(Media::Search, Extra::Absent, body)
        }
        Read::GatherComplete { ask } => {
            let body = gather_complete(alloc, look, who, ask, site, steps);
            shown_with(Media::Search, Extra::Absent, body)
        }
    }
}

/// What is shown, or why it isn't.
fn shown_with(
    media: Media,
    extra: Extra,
    body: Result<Bytes, ReadError>,
) -> Result<Result<Shown, Code>, AllocError>
    ensures shown { (meant : Result (List ℕ) ReadError)
        → Gives (λ body. body) ReadError.Memory body meant
        → IfOk result (λ found. found ≡ shown_with media extra meant) }
    ensures steps { (old new cost : ℕ) → Takes ReadError.Memory body old new cost
        → OnOk result (new ≡ old + cost) }
{
    match body {
        Ok(body) => Ok(Ok(Shown { media, extra, body })),
        Err(error) => match error {
            ReadError::Absent => Ok(Err(Code::Absent)),
            ReadError::Gone => Ok(Err(Code::Gone)),
            ReadError::NoPage { pages } => Ok(Err(Code::NoPage { pages })),
            ReadError::Memory => Err(AllocError),
        },
    }
}

/// What is asked for in the query counts as if it were preferred.
fn with_iris(prefer: Prefer, iris: bool) -> Prefer
    ensures { result ≡ with_iris prefer iris }
{
    Prefer {
        minimal: prefer.minimal,
        iris: prefer.iris || iris,
    }
}

// ---- writes

fn written_reply(
    alloc: Global,
    base: &str,
    allow: Allow,
    reply: &WriteReply,
) -> Result<Reply, AllocError>
    ensures { IfOk result (λ r. r ≡ record {
      status = write_status reply.now.made;
      allow = allow;
      media = Media.Json;
      extra = Extra.Absent;
      body = write_body base.now reply.now;
    }) }
{
    let iri = object_iri(alloc, base, &reply.object)?;
    let body = write_body(alloc, iri.as_str(), reply.repeat, reply.version)?;
    Ok(Reply {
        status: write_status(reply.made),
        allow,
        media: Media::Json,
        extra: Extra::Absent,
        body: Bytes::from_vec(body.into_bytes()),
    })
}

fn write_status(made: bool) -> Status
    ensures { result ≡ write_status made }
{
    if made { Status::Created } else { Status::Ok }
}

fn write_body(alloc: Global, iri: &str, repeat: bool, version: u32) -> Result<String, AllocError>
    ensures { IfOk result (λ text. string_bytes text ≡ write_text iri.now repeat version) }
{
    let repeat = bool_text(repeat);
    format!(in alloc; "{{\"object\":\"{iri}\",\"repeat\":{repeat},\"version\":{version}}}")
}

fn bool_text(b: bool) -> &'static str
    ensures { result.now ≡ bool_text b }
{
    if b { "true" } else { "false" }
}

/// The IRI of what was written.
fn object_iri(alloc: Global, base: &str, object: &Object) -> Result<String, AllocError>
    ensures { IfOk result (λ iri. string_bytes iri ≡ object_iri base.now object.now) }
{
    match object {
        Object::Reader(name) => reader_iri(alloc, base, name.as_str()),
        Object::Manifest(name) => manifest_iri(alloc, base, name.as_str()),
        Object::Note { owner, name } => note_iri(alloc, base, owner, name),
    }
}
