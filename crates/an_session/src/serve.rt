ghost use Rattle.std.specs.Prelude.{◌≤◌};
ghost use Rattle.an_session.specs.Session.{Session, line};
ghost use Rattle.an_session.specs.Trail.{Goes};

use crate::ended::Ended;
use crate::service::Service;
use crate::turn::turn;
use an_http::Buffer;
use an_world::Link;
use std::alloc::Global;

/// How many replies one connection has at most.
const REPLY_LIMIT: u32 = 1_000;

/// Serves one connection up to its end: reads request behind request from the link, has each of
/// them answered by the service, and writes the reply before it reads on. A reply to HEAD is its
/// head alone.
///
/// The connection closes behind the reply to a request that says close, behind the refusal of what
/// is no request, behind the 1,000th reply, and where the input ends.
pub fn serve_link<L: Link, C, S: Service<C>>(
    alloc: Global,
    link: &mut L,
    service: &mut S,
    context: &C,
) -> Ended
    ensures session { Goes S.stands (Session (S.rules context.now) result
        (line (L.traffic link.old) (L.read_faults link.old) (L.write_faults link.old))
        (line (L.traffic link.new) (L.read_faults link.new) (L.write_faults link.new)))
        service.old service.new }
    ensures kept { S.kept service.old service.new }
    ensures read_faults_kept { L.read_faults link.old ≤ L.read_faults link.new }
    ensures write_faults_kept { L.write_faults link.old ≤ L.write_faults link.new }
{
    let mut buffer = Buffer::new(alloc);
    for turns in 0..REPLY_LIMIT {
        let left = REPLY_LIMIT - turns;
        match turn(alloc, link, &mut buffer, service, context, left) {
            Some(ended) => return ended,
            None => {}
        }
    }
    unreachable!()
}
