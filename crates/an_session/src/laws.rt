//! What holds of all that is due, and of every service. Each law is the contract of a function that
//! does nothing.
ghost use Rattle.std.specs.Prelude.{◌≡◌, ℕ, ◌<◌, ◌≤◌, ◌+◌, ◌*◌, List, ◌++◌, length, true, false};
ghost use Rattle.std.specs.Prelude.{Option};
ghost use mathlib.Core.List.{IsPrefix};
ghost use Rattle.an_world.specs.Link.{Traffic};
ghost use Rattle.an_http.specs.Fields.{body_limit};
ghost use Rattle.an_http.specs.Head.{head_limit};
ghost use Rattle.an_http.specs.Requests.{Cuts, Piece, Requests};
ghost use Rattle.an_http.specs.declared.request.Request.{Request};
ghost use Rattle.an_session.specs.Due.{Due, AreAll, Fronts, has_last, reply_limit, requests_of};
ghost use Rattle.an_session.specs.Laws.{all_added, all_faults, IsOneList, shared};
ghost use Rattle.an_session.specs.Session.{Line, Session};
ghost use Rattle.an_session.specs.Trail.{Known, Item, Ran};
ghost use Rattle.an_session.specs.declared.ended.Ended.{Ended};

use crate::service::Service;

// ---- what is due

/// A law: all that is due of the same bytes is one list alone.
pub fn dues_are_unique()
    ensures all { (told : Option Traffic) (left : ℕ) (bytes : List ℕ)
        (one other : List Due) (rest end : List ℕ)
        → Fronts told left bytes one rest → AreAll told one rest
        → Fronts told left bytes other end → AreAll told other end
        → (one ≡ other) × (rest ≡ end) }
{}

/// A law: the requests that are due are the first of those that the bytes are cut into. Where none
/// of them is the last, they are what stands in front of the rest.
pub fn dues_are_requests()
    ensures first { (told : Option Traffic) (left : ℕ) (bytes : List ℕ)
        (dues : List Due) (rest : List ℕ)
        (requests : List Request) (end : List ℕ) (piece : Piece)
        → Fronts told left bytes dues rest → Requests bytes requests end piece
        → (more : List Request) × (requests ≡ requests_of dues ++ more) }
    ensures whole { (told : Option Traffic) (left : ℕ) (bytes : List ℕ)
        (dues : List Due) (rest : List ℕ)
        → has_last dues ≡ false → Fronts told left bytes dues rest
        → Cuts bytes (requests_of dues) rest }
{}

/// A law: where so many replies are left, at most so many are due.
pub fn dues_are_few()
    ensures few { (told : Option Traffic) (left : ℕ) (bytes : List ℕ)
        (dues : List Due) (rest : List ℕ)
        → 0 < left → Fronts told left bytes dues rest → length dues ≤ left }
{}

// ---- what is answered

/// A law: a connection's own entries are those that its answers added, in order, and its faults are
/// those that they met.
pub fn own_is_added<C, S: Service<C>>()
    ensures own { (context : C) (trail : List (Item S.Entry)) (from to : Known S.Entry)
        → Ran (S.rules context) trail from to → to.own ≡ from.own ++ all_added trail }
    ensures faults { (context : C) (trail : List (Item S.Entry)) (from to : Known S.Entry)
        → Ran (S.rules context) trail from to → to.faults ≡ from.faults + all_faults trail }
{}

/// A law: where nobody else writes there is one list alone, and where others may, none is shorter
/// than one before.
pub fn lists_are_one<C, S: Service<C>>()
    ensures one { (context : C) (trail : List (Item S.Entry)) (from to : Known S.Entry)
        → (S.rules context).shared ≡ false → Ran (S.rules context) trail from to
        → IsOneList trail from.list to.list }
    ensures later { (context : C) (trail : List (Item S.Entry)) (from to : Known S.Entry)
        → Ran (S.rules context) trail from to → IsPrefix from.list to.list }
{}

/// A law: what holds where nobody else writes holds where others may.
pub fn trails_are_shared<C, S: Service<C>>()
    ensures shared { (context : C) (ended : Ended) (old new : Line) (from to : Known S.Entry)
        → Session (S.rules context) ended old new from to
        → Session (shared (S.rules context)) ended old new from to }
{}

/// A law: no connection reads more than 1,000 requests of a largest head and body have.
pub fn sessions_read_little<C, S: Service<C>>()
    ensures little { (context : C) (ended : Ended) (old new : Line) (from to : Known S.Entry)
        → (session : Session (S.rules context) ended old new from to)
        → length session.read ≤ reply_limit * (head_limit + body_limit) }
{}
