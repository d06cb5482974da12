ghost use Rattle.std.specs.Prelude.{◌≡◌, ◌<◌, IfOk};
ghost use Rattle.an_answers.specs.Answer.{answer_of};
ghost use Rattle.an_state.specs.View.{view_by};

use crate::answers::answer;
use an_base::{Prefer, Steps};
use an_http::Reply;
use an_list::Site;
use an_policy::Caller;
use an_routes::Read;
use an_state::Look;
use std::alloc::{AllocError, Global};
use std::marker::Brand;
use std::sync::ledger::{Blank, Ledger};

/// The answer to a read whose steps nobody counts.
pub fn answer_uncounted<T: Look>(
    alloc: Global,
    look: &T,
    site: &Site,
    caller: &Caller,
    prefer: Prefer,
    read: &Read,
) -> Result<Reply, AllocError>
    ensures answer { IfOk result (λ reply. reply
        ≡ answer_of site.now (view_by (T.state look.now) caller.now) prefer read.now) }
{
    answer_from::<T, Brand>(alloc, Blank::new(1), look, site, caller, prefer, read)
}

fn answer_from<T: Look, L: Ledger>(
    alloc: Global,
    blank: Blank,
    look: &T,
    site: &Site,
    caller: &Caller,
    prefer: Prefer,
    read: &Read,
) -> Result<Reply, AllocError>
    requires name { blank.name ≡ L.name }
    requires parts { blank.parts ≡ L.parts }
    requires some { 0 < blank.parts }
    ensures { IfOk result (λ reply. reply
        ≡ answer_of site.now (view_by (T.state look.now) caller.now) prefer read.now) }
{
    let mut steps = Steps::<L>::new(blank);
    answer(alloc, look, site, caller, prefer, read, &mut steps)
}
