ghost use Rattle.std.specs.Prelude.{◌≡◌, IfNone, IfSome, IsSome, IsTrue, false, map, string_bytes};
ghost use Rattle.an_base.specs.Faults.{Rises};
ghost use Rattle.an_session.specs.Session.{line};
ghost use Rattle.an_lines.specs.Status.{IsUnfailing, Misunderstands, ReadsLittle};
ghost use Rattle.an_app.specs.Form.{IsServed, form_of};
ghost use Rattle.an_app.specs.Outside.{outside_of};
ghost use Rattle.an_app.specs.Claim.{ReadsInput, Runs};

use crate::form::{Form, form_of};
use crate::ran::Ran;
use crate::serving::serve_at;
use crate::stored::{export_at, harvest_at, import_at, session_at};
use an_door::Door;
use an_keep::Keeper;
use an_lines::{Status, find, tell_report, trial};
use an_seats::AtStores;
use an_world::{Clock, Link};
use std::alloc::Global;
use std::sync::Wait;
use std::thread::Threads;

/// Does what the words say. They are those of a form, each behind a word that names the store,
/// whose cells the keeper has: `import`, which writes lines to the store; `export`, which prints
/// what the reader of a name sees of it; with the base of all IRIs and how many items a page has,
/// `find`, which plays lines over a state of its own, or `session`, which serves one connection
/// over the link, or, with a port, how many are served at once and how many in all, `serve`, which
/// serves the connections that come in at the door, or, with the name of a reader, `harvest`, which
/// prints what lives after the changes that it sees; or, with how many annotations and a seed,
/// `trial`, which plays a generated input. The run ends as misunderstood for other words, where
/// nothing is read. The door may not be bound yet. The keeper is given back, as the run left it.
pub fn run<
    R: Threads + Wait + Sync,
    K: Keeper + Send,
    L: Link,
    T: Link + Send,
    D: Door<AtStores<K>, Link = T> + Send,
    C: Clock + Sync,
>(
    rt: &R,
    alloc: Global,
    words: &[String],
    keeper: K,
    link: &mut L,
    door: &mut D,
    clock: &C,
) -> Ran<K>
    requires unbound { (D.counts door.old).port ≡ 0 }
    ensures understood { IfSome (form_of (map string_bytes words.now)) (Runs
        (outside_of (K.told keeper) (K.told result.keeper) (¬ (IsTrue K.is_sure))
        (Rises (L.read_faults link.old) (L.read_faults link.new))
        (Rises (L.write_faults link.old) (L.write_faults link.new)))
        (record { tally = D.counts door.new; faults = D.faults door.new })
        (C.answers clock.now)
        (line (L.traffic link.old) (L.read_faults link.old) (L.write_faults link.old))
        (line (L.traffic link.new) (L.read_faults link.new) (L.write_faults link.new))
        result.status) }
    ensures misunderstood { IfNone (form_of (map string_bytes words.now)) (Misunderstands
        (Rises (L.write_faults link.old) (L.write_faults link.new))
        (L.traffic link.old) (L.traffic link.new) result.status) }
    ensures untouched { IfNone (form_of (map string_bytes words.now))
        (K.told result.keeper ≡ K.told keeper) }
    ensures bounded { IfSome (form_of (map string_bytes words.now)) (ReadsInput
        (L.traffic link.old) (L.traffic link.new)) }

    // A keeper of a kind that never begins to tell its cells tells them after only where it did
    // before.
    ensures never { K.may_begin ≡ false → IsSome (K.told result.keeper)
        → IsSome (K.told keeper) }

    // Over a link that never fails all is printed, unless memory runs out. A keeper and a door that
    // never fail aren't told to have failed.
    ensures sure_link { IsTrue L.is_sure → IsUnfailing result.status }
    ensures sure_keeper { IsTrue K.is_sure → ¬ (result.status ≡ Status.KeeperFailed) }
    ensures sure_door { IsTrue D.is_sure → ¬ (result.status ≡ Status.DoorFailed) }
{
    run_words(rt, alloc, words, keeper, link, door, clock)
}

/// The same, but for what is known of a link, a keeper or a door that never fails.
fn run_words<
    R: Threads + Wait + Sync,
    K: Keeper + Send,
    L: Link,
    T: Link + Send,
    D: Door<AtStores<K>, Link = T> + Send,
    C: Clock + Sync,
>(
    rt: &R,
    alloc: Global,
    words: &[String],
    keeper: K,
    link: &mut L,
    door: &mut D,
    clock: &C,
) -> Ran<K>
    requires unbound { (D.counts door.old).port ≡ 0 }
    ensures understood { IfSome (form_of (map string_bytes words.now)) (Runs
        (outside_of (K.told keeper) (K.told result.keeper) (¬ (IsTrue K.is_sure))
        (Rises (L.read_faults link.old) (L.read_faults link.new))
        (Rises (L.write_faults link.old) (L.write_faults link.new)))
        (record { tally = D.counts door.new; faults = D.faults door.new })
        (C.answers clock.now)
        (line (L.traffic link.old) (L.read_faults link.old) (L.write_faults link.old))
        (line (L.traffic link.new) (L.read_faults link.new) (L.write_faults link.new))
        result.status) }
    ensures misunderstood { IfNone (form_of (map string_bytes words.now)) (Misunderstands
        (Rises (L.write_faults link.old) (L.write_faults link.new))
        (L.traffic link.old) (L.traffic link.new) result.status) }
    ensures untouched { IfNone (form_of (map string_bytes words.now))
        (K.told result.keeper ≡ K.told keeper) }
    ensures bounded { IfSome (form_of (map string_bytes words.now)) (ReadsInput
        (L.traffic link.old) (L.traffic link.new)) }
    ensures never { K.may_begin ≡ false → IsSome (K.told result.keeper)
        → IsSome (K.told keeper) }
{
    match form_of(alloc, words) {
        Ok(Some(form)) => run_form(rt, alloc, form, keeper, link, door, clock),
        Ok(None) => Ran {
            status: misunderstood(link),
            keeper,
        },
        Err(_) => Ran {
            status: Status::Memory,
            keeper,
        },
    }
}

/// Does what a form says.
fn run_form<
    R: Threads + Wait + Sync,
    K: Keeper + Send,
    L: Link,
    T: Link + Send,
    D: Door<AtStores<K>, Link = T> + Send,
    C: Clock + Sync,
>(rt: &R, alloc: Global, form: Form, keeper: K, link: &mut L, door: &mut D, clock: &C) -> Ran<K>
    requires served { IsServed form }
    requires unbound { (D.counts door.old).port ≡ 0 }
    ensures runs { Runs
        (outside_of (K.told keeper) (K.told result.keeper) (¬ (IsTrue K.is_sure))
        (Rises (L.read_faults link.old) (L.read_faults link.new))
        (Rises (L.write_faults link.old) (L.write_faults link.new)))
        (record { tally = D.counts door.new; faults = D.faults door.new })
        (C.answers clock.now)
        (line (L.traffic link.old) (L.read_faults link.old) (L.write_faults link.old))
        (line (L.traffic link.new) (L.read_faults link.new) (L.write_faults link.new))
        result.status form }
    ensures bounded { ReadsInput (L.traffic link.old) (L.traffic link.new) form }
    ensures never { K.may_begin ≡ false → IsSome (K.told result.keeper)
        → IsSome (K.told keeper) }
{
    match form {
        Form::Find(settings) => Ran {
            status: find(alloc, link, &settings),
            keeper,
        },
        Form::Import => import_at(alloc, link, keeper),
        Form::Export(by) => export_at(alloc, link, keeper, by.as_str()),
        Form::Harvest { settings, by } => {
            harvest_at(alloc, link, keeper, &settings, by.as_str())
        }
        Form::Session(settings) => session_at(alloc, link, keeper, &settings, clock),
        Form::Serve(serving) => serve_at(rt, alloc, keeper, link, &serving, door, clock),
        Form::Trial { count, seed } => Ran {
            status: trial(alloc, link, count, seed),
            keeper,
        },
    }
}

/// Tells that the words are those of no form.
pub fn misunderstood<L: Link>(link: &mut L) -> Status
    ensures told { Misunderstands (Rises (L.write_faults link.old) (L.write_faults link.new))
        (L.traffic link.old) (L.traffic link.new) result }
    ensures bounded { ReadsLittle (L.traffic link.old) (L.traffic link.new) }
{
    tell_report(
        link,
        Status::Misunderstood,
        "words not understood\n".as_bytes(),
    )
}
