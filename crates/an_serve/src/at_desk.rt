ghost use Rattle.std.specs.Prelude.{◌≡◌, ◌≤◌, ◌⊎◌, IfOk, IfSome, IsSome, IsTrue, OnErr};
ghost use Rattle.an_base.specs.Moment.{IsMoment};
ghost use Rattle.an_http.specs.declared.reply.Reply.{Reply};
ghost use Rattle.an_rows.specs.Cells.{cells};
ghost use Rattle.an_session.specs.Session.{ReadsRequests, line};
ghost use Rattle.an_session.specs.Trail.{Comes, Goes};
ghost use Rattle.an_serve.specs.AtDesk.{Connection, StandsFor};
ghost use Rattle.an_serve.specs.Setting.{DeskComes, DeskKeeps, DeskRests};
ghost use Rattle.an_state.specs.Commands.{is_sendable};

use crate::responding::{Response, respond};
use crate::told::reply_to_write;
use an_base::Moment;
use an_http::{Allow, Reply, Request};
use an_keep::Keeper;
use an_list::Site;
use an_policy::Caller;
use an_session::{Ended, Service, serve_link};
use an_shelf::Desk;
use an_state::Command;
use an_world::{Clock, Link};
use std::alloc::{AllocError, Global};
use std::marker::Model;

/// Serves one connection at a store that nobody else writes meanwhile, up to the connection's end.
/// Each write is decided at the moment that the clock tells then, kept, and only then answered.
///
/// What a request is answered by depends on what happened to the store before it alone: whatever
/// events led to the store's state, and the writes that this connection added.
pub fn session_at_desk<L: Link, K: Keeper, C: Clock>(
    alloc: Global,
    link: &mut L,
    desk: &mut Desk<K>,
    settings: &Site,
    clock: &C,
) -> Ended
    ensures session { Goes StandsFor (Connection
        (¬ (IsTrue K.is_sure)) (C.answers clock.now) settings.now result
        (line (L.traffic link.old) (L.read_faults link.old) (L.write_faults link.old))
        (line (L.traffic link.new) (L.read_faults link.new) (L.write_faults link.new)))
        desk.old desk.new }
    ensures bounded { ReadsRequests (L.traffic link.old) (L.traffic link.new) }
    ensures read_faults_kept { L.read_faults link.old ≤ L.read_faults link.new }
    ensures write_faults_kept { L.write_faults link.old ≤ L.write_faults link.new }
    ensures faults_kept { desk.old.faults ≤ desk.new.faults }

    // No keeper begins to tell its cells, and those told are those of the state.
    ensures told { IsSome desk.new.told → IsSome desk.old.told }
    ensures cells { IfSome desk.new.told (λ found. found ≡ cells desk.new.state) }
{
    desk.stands();
    let ended = serve_link(alloc, link, desk, &Context { settings, clock });
    desk.stands();
    ended
}

/// By what a desk answers. Contracts see the settings and the clock.
#[derive(Drop)]
struct Context<'a, C: Clock> {
    settings: &'a Site,
    clock: &'a C,
}

impl<'a, C: Clock> Model for Context<'a, C> {
    ghost use Rattle.an_serve.specs.Setting.{Setting};

    ghost Value = { Setting C };

    ghost view = { λ c. record { site = c.settings.now; clock = c.clock.now } };
}

impl<'a, C: Clock> Context<'a, C> {
    fn settings(&self) -> &Site
        ensures { result.now ≡ self.now.site }
    {
        self.settings
    }

    /// A moment that the clock tells.
    fn moment(&self) -> Moment
        ensures answered { IsTrue (C.answers self.now.clock result) }
        ensures moment { IsMoment result }
    {
        self.clock.now()
    }
}

impl<'a, K: Keeper, C: Clock> Service<Context<'a, C>> for Desk<K> {
    ghost use Rattle.std.specs.Prelude.{IsTrue};
    ghost use Rattle.an_serve.specs.AtDesk.{StandsFor, desk_rules};
    ghost use Rattle.an_laws.specs.Events.{Event};
    ghost use Rattle.an_serve.specs.Setting.{DeskKeeps};
    ghost use Rattle.std.proofs.Math.Nat.{le_refl, le_trans};

    ghost Entry = { Event };

    ghost rules = { λ context.
        desk_rules (¬ (IsTrue K.is_sure)) (C.answers context.clock) context.site };

    ghost stands = { StandsFor };

    ghost kept = { DeskKeeps };

    ghost kept_none = { λ desk. record { told = λ some. some; faults = le_refl desk.faults } };

    ghost kept_then = { λ old mid new first next. record {
      told = λ some. first.told (next.told some);
      faults = le_trans first.faults next.faults;
    } };

    fn answer(
        &mut self,
        alloc: Global,
        context: &Context<'a, C>,
        request: &Request,
    ) -> Result<Reply, AllocError> {
        self.settle()?;
        match respond(alloc, self.look(), context.settings(), request)? {
            Response::Ready(reply) => Ok(reply),
            Response::Write {
                allow,
                caller,
                command,
            } => write(alloc, self, context, allow, caller, command),
        }
    }
}

/// Does a write at the moment that it is, and answers it. Where memory runs out it may be done all
/// the same, and wait to be shown.
fn write<K: Keeper, C: Clock>(
    alloc: Global,
    desk: &mut Desk<K>,
    context: &Context<'_, C>,
    allow: Allow,
    caller: Caller,
    command: Command,
) -> Result<Reply, AllocError>
    requires { IsTrue (is_sendable command) }
    ensures comes { IfOk result (λ reply. DeskComes
        (¬ (IsTrue K.is_sure)) (C.answers context.now.clock) context.now.site
        (Response.Write allow caller command) desk.old reply desk.new) }
    ensures memory { OnErr result (DeskRests desk.old desk.new ⊎ ((reply : Reply) × DeskComes
        (¬ (IsTrue K.is_sure)) (C.answers context.now.clock) context.now.site
        (Response.Write allow caller command) desk.old reply desk.new)) }
    ensures kept { DeskKeeps desk.old desk.new }
{
    let moment = context.moment();
    let written = desk.write(alloc, moment, &caller, command);
    reply_to_write(alloc, context.settings(), allow, written)
}
