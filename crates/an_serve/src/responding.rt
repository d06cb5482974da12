ghost use Rattle.std.specs.Prelude.{◌≡◌, IfOk, Ok, Err};
ghost use Rattle.an_list.specs.Site.{Site};
ghost use Rattle.an_answers.specs.Answer.{refusal_reply};
ghost use Rattle.an_state.specs.View.{view_by};
ghost use Rattle.an_serve.specs.Respond.{caller_of, is_read, options_reply};
ghost use Rattle.an_serve.specs.Respond.{query_reply, query_response, read_response, response_of};
ghost use Rattle.an_serve.specs.Respond.{route_response, write_response};

use an_answers::{answer_uncounted, query_answer, refusal_reply};
use an_base::{Bytes, TryCopy};
use an_code::Code;
use an_http::{Allow, Auth, Extra, Media, Method, Reply, Request, Status};
use an_list::Site;
use an_policy::Caller;
use an_routes::{Read, Route, RouteError, WriteRoute, command_of, route};
use an_state::{Command, Look};
use std::alloc::{AllocError, Global};

/// What comes of a request.
#[derive(Drop)]
pub enum Response {
    /// It is answered.
    Ready(Reply),
    /// This caller asks for this to be written, at a path with these methods. The machine decides.
    Write {
        allow: Allow,
        caller: Caller,
        command: Command,
    },
}

/// What comes of a request: first by its target, its path, its method and its Authorization, then
/// by its query, then by the tree of what it puts, and last by what its caller may read.
#[tactic(auto, unfolding(crate::specs::Respond::response_of))]
pub fn respond<T: Look>(
    alloc: Global,
    look: &T,
    settings: &Site,
    request: &Request,
) -> Result<Response, AllocError>
    ensures { IfOk result (λ response. response
        ≡ response_of settings.now (T.state look.now) request.now) }
{
    match route(alloc, request.method, request.target.as_str()) {
        Ok(route) => respond_at(alloc, look, settings, request, route),
        Err(error) => respond_nowhere(alloc, look, request, error),
    }
}

/// At a route.
fn respond_at<T: Look>(
    alloc: Global,
    look: &T,
    settings: &Site,
    request: &Request,
    route: Route,
) -> Result<Response, AllocError>
    ensures { IfOk result (λ response. response
        ≡ route_response settings.now (T.state look.now) request.now (Ok route)) }
{
    match route {
        Route::Options(allow) => Ok(Response::Ready(options_reply(alloc, allow))),
        Route::Read(read) => {
            let caller = caller_of(alloc, &request.auth)?;
            respond_to_read(alloc, look, settings, caller, request, &read)
        }
        Route::Write(write) => {
            let caller = caller_of(alloc, &request.auth)?;
            respond_to_write(alloc, caller, write, request.body.as_slice())
        }
    }
}

/// Where there is no route.
fn respond_nowhere<T: Look>(
    alloc: Global,
    look: &T,
    request: &Request,
    error: RouteError,
) -> Result<Response, AllocError>
    ensures response { (site : Site) → IfOk result (λ response. response
        ≡ route_response site (T.state look.now) request.now (Err error)) }
    ensures memory { IfOk result (λ _. ¬ (error ≡ RouteError.Memory)) }
{
    match error {
        RouteError::Target => refused(alloc, Allow::Absent, Code::Target),
        RouteError::Route => refused(alloc, Allow::Absent, Code::Route),
        RouteError::Method { allow } => refused(alloc, allow, Code::Method),
        RouteError::Query { allow, code } => {
            let caller = caller_of(alloc, &request.auth)?;
            respond_to_query(alloc, look, caller, is_read(request.method), allow, code)
        }
        RouteError::Memory => Err(AllocError),
    }
}

fn refused(alloc: Global, allow: Allow, refusal: Code) -> Result<Response, AllocError>
    ensures { IfOk result (λ response. response
        ≡ Response.Ready (refusal_reply allow refusal)) }
{
    Ok(Response::Ready(refusal_reply(alloc, allow, refusal)?))
}

fn options_reply(alloc: Global, allow: Allow) -> Reply
    ensures { result ≡ options_reply allow }
{
    Reply {
        status: Status::NoContent,
        allow,
        media: Media::Absent,
        extra: Extra::Preflight,
        body: Bytes::from_vec(Vec::new(alloc)),
    }
}

/// Who sends a request.
fn caller_of(alloc: Global, auth: &Auth) -> Result<Option<Caller>, AllocError>
    ensures { IfOk result (λ caller. caller ≡ caller_of auth.now) }
{
    match auth {
        Auth::Absent => Ok(Some(Caller::Anonymous)),
        Auth::Bearer(token) => Ok(Some(Caller::Token(token.copy()?))),
        Auth::Other => Ok(None),
    }
}

fn is_read(method: Option<Method>) -> bool
    ensures { result ≡ is_read method }
{
    match method {
        Some(Method::Get) => true,
        Some(Method::Head) => true,
        _ => false,
    }
}

/// Where the query is refused.
fn respond_to_query<T: Look>(
    alloc: Global,
    look: &T,
    caller: Option<Caller>,
    reads: bool,
    allow: Allow,
    refusal: Code,
) -> Result<Response, AllocError>
    ensures { IfOk result (λ response. response
        ≡ query_response (T.state look.now) caller reads allow refusal) }
{
    match caller {
        Some(caller) => {
            let reply = query_reply(alloc, look, &caller, reads, allow, refusal)?;
            Ok(Response::Ready(reply))
        }
        None => refused(alloc, allow, Code::NotSigned),
    }
}

fn query_reply<T: Look>(
    alloc: Global,
    look: &T,
    caller: &Caller,
    reads: bool,
    allow: Allow,
    refusal: Code,
) -> Result<Reply, AllocError>
    ensures { IfOk result (λ reply. reply
        ≡ query_reply (view_by (T.state look.now) caller.now) reads allow refusal) }
{
    if reads {
        query_answer(alloc, look, caller, allow, refusal)
    } else {
        refusal_reply(alloc, allow, refusal)
    }
}

fn respond_to_read<T: Look>(
    alloc: Global,
    look: &T,
    settings: &Site,
    caller: Option<Caller>,
    request: &Request,
    read: &Read,
) -> Result<Response, AllocError>
    ensures { IfOk result (λ response. response
        ≡ read_response settings.now (T.state look.now) caller request.now.prefer read.now) }
{
    match caller {
        Some(caller) => {
            let reply = answer_uncounted(alloc, look, settings, &caller, request.prefer, read)?;
            Ok(Response::Ready(reply))
        }
        None => refused(alloc, read.methods(), Code::NotSigned),
    }
}

fn respond_to_write(
    alloc: Global,
    caller: Option<Caller>,
    write: WriteRoute,
    body: &[u8],
) -> Result<Response, AllocError>
    ensures { IfOk result (λ response. response ≡ write_response caller write body.now) }
{
    let allow = write.methods();
    match caller {
        Some(caller) => match command_of(alloc, write, body)? {
            Ok(command) => Ok(Response::Write {
                allow,
                caller,
                command,
            }),
            Err(refusal) => refused(alloc, allow, refusal),
        },
        None => refused(alloc, allow, Code::NotSigned),
    }
}
