//! What a caller gets of a look without a link.
ghost use Rattle.std.specs.Prelude.{◌≡◌, ℕ, IfOk, IsSome, List, None, Ok, Err, Some, codes};
ghost use Rattle.an_feed.specs.Served.{Serves};
ghost use Rattle.an_http.specs.declared.method.Method.TheVariants.{Get};
ghost use Rattle.an_list.specs.Site.{Site};
ghost use Rattle.an_routes.specs.Routes.{route_of};
ghost use Rattle.an_state.specs.View.{View, view_by};
ghost use Rattle.an_answers.specs.Fetch.{get_reply, got_at, got_of, no_preference};
ghost use Rattle.an_answers.specs.Fetch.{unrouted_reply};

use crate::answers::query_answer;
use crate::uncounted::answer_uncounted;
use an_base::Prefer;
use an_code::Code;
use an_harvest::{Fetch, FetchError, Got};
use an_http::{Allow, Method, Reply, refusal_reply};
use an_list::Site;
use an_policy::Caller;
use an_routes::{Route, RouteError, route};
use an_state::Look;
use std::alloc::{AllocError, Global};
use std::marker::Model;

/// Nothing is preferred.
pub const NO_PREFERENCE: Prefer = Prefer {
    minimal: false,
    iris: false,
};

/// A fetch over a look, as one of its callers: it gets the status and the body of the answer to a
/// GET of the target, and never fails. Contracts see where the server stands, and what the caller
/// may read.
#[derive(Drop)]
pub struct LookFetch<'a, T: Look> {
    look: &'a T,
    site: &'a Site,
    caller: &'a Caller,
}

impl<'a, T: Look> Model for LookFetch<'a, T> {
    ghost use Rattle.std.specs.Coded.{codes};
    ghost use Rattle.an_base.specs.TreeCode.{tree_code};
    ghost use Rattle.an_state.specs.View.{view_by};
    ghost use Rattle.an_answers.specs.Fetch.{Asked};

    ghost Value = { Asked };

    ghost coded = { Prim.hlevel (codes, tree_code) };

    ghost view = { λ f.
        record { site = f.site.now; view = view_by (T.state f.look.now) f.caller.now } };
}

impl<'a, T: Look> LookFetch<'a, T> {
    /// Takes no memory.
    pub fn new(look: &'a T, site: &'a Site, caller: &'a Caller) -> LookFetch<'a, T>
        ensures asked { result
            ≡ record { site = site.now; view = view_by (T.state look.now) caller.now } }
    {
        LookFetch { look, site, caller }
    }
}

impl<'a, T: Look> Fetch for LookFetch<'a, T> {
    ghost use Rattle.std.specs.Prelude.{◌≡◌};
    ghost use Rattle.an_answers.specs.Fetch.{got_at};

    ghost answers = { λ asked target got. got ≡ got_at asked target };

    ghost faults = { λ _. 0 };

    fn get(&mut self, alloc: Global, target: &str) -> Result<Got, FetchError> {
        match reply_to(alloc, self.look, self.site, self.caller, target) {
            Ok(reply) => Ok(got_of(reply)),
            Err(_) => Err(FetchError::Memory),
        }
    }
}

/// The reply to a GET of a target.
fn reply_to<T: Look>(
    alloc: Global,
    look: &T,
    site: &Site,
    caller: &Caller,
    target: &str,
) -> Result<Reply, AllocError>
    ensures { IfOk result (λ reply. reply ≡ get_reply
        (record { site = site.now; view = view_by (T.state look.now) caller.now })
        (route_of (Some Get) target.now)) }
{
    match route(alloc, Some(Method::Get), target) {
        Ok(route) => routed_reply(alloc, look, site, caller, route),
        Err(error) => unrouted_reply(alloc, look, caller, error),
    }
}

/// The reply to a GET at a route, which is to a read.
fn routed_reply<T: Look>(
    alloc: Global,
    look: &T,
    site: &Site,
    caller: &Caller,
    route: Route,
) -> Result<Reply, AllocError>
    ensures { IfOk result (λ reply. reply ≡ get_reply
        (record { site = site.now; view = view_by (T.state look.now) caller.now })
        (Ok route)) }
{
    match route {
        Route::Read(read) => answer_uncounted(alloc, look, site, caller, NO_PREFERENCE, &read),
        Route::Options(allow) => refusal_reply(alloc, allow, Code::Method),
        Route::Write(write) => refusal_reply(alloc, write.methods(), Code::Method),
    }
}

/// The reply to a GET without a route.
fn unrouted_reply<T: Look>(
    alloc: Global,
    look: &T,
    caller: &Caller,
    error: RouteError,
) -> Result<Reply, AllocError>
    ensures reply { IfOk result (λ reply. reply
        ≡ unrouted_reply (view_by (T.state look.now) caller.now) error) }
    ensures memory { IfOk result (λ _. ¬ (error ≡ RouteError.Memory)) }
{
    match error {
        RouteError::Target => refusal_reply(alloc, Allow::Absent, Code::Target),
        RouteError::Route => refusal_reply(alloc, Allow::Absent, Code::Route),
        RouteError::Method { allow } => refusal_reply(alloc, allow, Code::Method),
        RouteError::Query { allow, code } => query_answer(alloc, look, caller, allow, code),
        RouteError::Memory => Err(AllocError),
    }
}

/// Its status and its body.
fn got_of(reply: Reply) -> Got
    ensures { result ≡ got_of reply }
{
    let Reply { status, body, .. } = reply;
    Got {
        status: status.number(),
        body,
    }
}

/// A law: what a fetch over a look gets for the stream of changes and for its pages is what is
/// served of its caller's view; and for the stream nobody gets 401.
#[tactic(auto, using(crate::proofs::FetchLemmas::looks))]
pub fn looks_serve()
    ensures serves { (site : Site) (view : View) → IsSome view.who → Serves site view
        (λ target got. got ≡ got_at (record { site = site; view = view }) target) }
    ensures nobody { (site : Site) (view : View) → view.who ≡ None
        → (got_at (record { site = site; view = view }) (codes "/changes")).status ≡ 401 }
{}
