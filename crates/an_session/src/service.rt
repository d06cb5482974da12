ghost use Rattle.std.specs.Prelude.{◌≡◌};
ghost use Rattle.an_session.specs.Trail.{Comes, Goes};

use an_http::{Reply, Request};
use std::alloc::{AllocError, Global};

/// What answers requests, one after another. Its context is lent to it for a whole connection, and
/// doesn't change: settings, say, a clock, and a store that others share.
pub trait Service<C> {
    ghost use Rattle.an_session.specs.Trail.{Rules, Known};

    // What its lists have.
    ghost Entry: { Type 0 };

    // By what it answers, in this context.
    ghost rules: { C → Rules Entry };

    // What it may stand for: a list of entries, those of them that are its connection's own, and
    // how many faults its answers met.
    ghost stands: { Self → Known Entry → Type 0 };

    // What stays of it, whatever it answers.
    ghost kept: { Self → Self → Type 0 };

    /// Answers a request. Its only error is want of memory, behind which either nothing came of the
    /// request, or it was answered all the same and the reply is lost.
    fn answer(&mut self, alloc: Global, context: &C, request: &Request) -> Result<Reply, AllocError>
        ensures answered { Goes stands (Comes (rules context.now) request.now result)
            self.old self.new }
        ensures kept { kept self.old self.new };

    ghost kept_none: { (service : Self) → kept service service };

    ghost kept_then: { (old mid new : Self) → kept old mid → kept mid new → kept old new };
}
