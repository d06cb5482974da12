//! Runs at a store, which is opened first.
ghost use Rattle.std.specs.Prelude.{◌≡◌, [], IfOk, IsSome, IsTrue, false, string_bytes};
ghost use Rattle.an_base.specs.Faults.{Rises};
ghost use Rattle.an_state.specs.State.{State};
ghost use Rattle.an_serve.specs.AtDesk.{Connection};
ghost use Rattle.an_laws.specs.Events.{Event, IsLegal, Keeps, state_at, told_at};
ghost use Rattle.an_serve.specs.Events.{opened};
ghost use Rattle.an_session.specs.Session.{ReadsRequests, line};
ghost use Rattle.an_session.specs.Trail.{Known};
ghost use Rattle.an_app.specs.AtStore.{ExportsAt, HarvestsAt, ImportsAt};
ghost use Rattle.an_app.specs.Outside.{WasLeft, outside_of};
ghost use Rattle.an_lines.specs.ImportEnds.{Imports};
ghost use Rattle.an_app.specs.Unopened.{Unopened, damage_text};
ghost use Rattle.an_app.specs.SessionEnds.{SessionAt, ended_status};
ghost use Rattle.an_lines.specs.Status.{ReadsLittle};

use crate::ran::Ran;
use an_keep::Keeper;
use an_lines::{Status, export, harvest, import, tell};
use an_list::Site;
use an_serve::session_at_desk;
use an_session::Ended;
use an_shelf::{Desk, NotOpened, OpenError};
use an_world::{Clock, Link};
use std::alloc::{AllocError, Global};

/// Writes lines to the store of a keeper.
pub(crate) fn import_at<L: Link, K: Keeper>(alloc: Global, link: &mut L, keeper: K) -> Ran<K>
    ensures imports { ImportsAt
        (outside_of (K.told keeper) (K.told result.keeper) (¬ (IsTrue K.is_sure))
        (Rises (L.read_faults link.old) (L.read_faults link.new))
        (Rises (L.write_faults link.old) (L.write_faults link.new)))
        (L.traffic link.old) (L.traffic link.new) result.status }
    ensures bounded { ReadsLittle (L.traffic link.old) (L.traffic link.new) }
    ensures never { K.may_begin ≡ false → IsSome (K.told result.keeper)
        → IsSome (K.told keeper) }
{
    match Desk::open(alloc, keeper) {
        Ok(desk) => import_into(alloc, link, desk),
        Err(refused) => not_opened(alloc, link, refused),
    }
}

/// Writes lines to an open store. The keeper is given back: one of a sure kind is known to have
/// failed no call, and the cells of each are those of its state.
fn import_into<L: Link, K: Keeper>(alloc: Global, link: &mut L, desk: Desk<K>) -> Ran<K>
    ensures imports { (after : State) × WasLeft (K.told result.keeper) after × Imports
        (Rises (L.read_faults link.old) (L.read_faults link.new))
        (Rises (L.write_faults link.old) (L.write_faults link.new))
        (¬ (IsTrue K.is_sure))
        (L.traffic link.old) (L.traffic link.new) desk.state after result.status }
    ensures told { IsSome (K.told result.keeper) → IsSome desk.told }
    ensures bounded { ReadsLittle (L.traffic link.old) (L.traffic link.new) }
{
    let mut desk = desk;
    let status = import(alloc, link, &mut desk);
    let keeper = desk.into_keeper();
    Ran { status, keeper }
}

/// Prints what a reader sees of the store of a keeper.
pub(crate) fn export_at<L: Link, K: Keeper>(
    alloc: Global,
    link: &mut L,
    keeper: K,
    by: &str,
) -> Ran<K>
    ensures exports { ExportsAt
        (outside_of (K.told keeper) (K.told result.keeper) (¬ (IsTrue K.is_sure))
        (Rises (L.read_faults link.old) (L.read_faults link.new))
        (Rises (L.write_faults link.old) (L.write_faults link.new)))
        by.now (L.traffic link.old) (L.traffic link.new) result.status }
    ensures bounded { ReadsLittle (L.traffic link.old) (L.traffic link.new) }
    ensures never { K.may_begin ≡ false → IsSome (K.told result.keeper)
        → IsSome (K.told keeper) }
{
    match Desk::open(alloc, keeper) {
        Ok(desk) => {
            let status = export(alloc, link, &desk, by);
            let keeper = desk.into_keeper();
            Ran { status, keeper }
        }
        Err(refused) => not_opened(alloc, link, refused),
    }
}

/// Prints what lives after the changes that a reader sees of the store of a keeper.
pub(crate) fn harvest_at<L: Link, K: Keeper>(
    alloc: Global,
    link: &mut L,
    keeper: K,
    settings: &Site,
    by: &str,
) -> Ran<K>
    ensures harvests { HarvestsAt
        (outside_of (K.told keeper) (K.told result.keeper) (¬ (IsTrue K.is_sure))
        (Rises (L.read_faults link.old) (L.read_faults link.new))
        (Rises (L.write_faults link.old) (L.write_faults link.new)))
        settings.now by.now (L.traffic link.old) (L.traffic link.new) result.status }
    ensures bounded { ReadsLittle (L.traffic link.old) (L.traffic link.new) }
    ensures never { K.may_begin ≡ false → IsSome (K.told result.keeper)
        → IsSome (K.told keeper) }
{
    match Desk::open(alloc, keeper) {
        Ok(desk) => {
            let status = harvest(alloc, link, &desk, settings, by);
            let keeper = desk.into_keeper();
            Ran { status, keeper }
        }
        Err(refused) => not_opened(alloc, link, refused),
    }
}

/// Serves one connection at the store of a keeper.
pub(crate) fn session_at<L: Link, K: Keeper, C: Clock>(
    alloc: Global,
    link: &mut L,
    keeper: K,
    settings: &Site,
    clock: &C,
) -> Ran<K>
    ensures session { SessionAt
        (outside_of (K.told keeper) (K.told result.keeper) (¬ (IsTrue K.is_sure))
        (Rises (L.read_faults link.old) (L.read_faults link.new))
        (Rises (L.write_faults link.old) (L.write_faults link.new)))
        (C.answers clock.now) settings.now
        (line (L.traffic link.old) (L.read_faults link.old) (L.write_faults link.old))
        (line (L.traffic link.new) (L.read_faults link.new) (L.write_faults link.new))
        result.status }
    ensures bounded { ReadsRequests (L.traffic link.old) (L.traffic link.new) }
    ensures never { K.may_begin ≡ false → IsSome (K.told result.keeper)
        → IsSome (K.told keeper) }
{
    match Desk::open(alloc, keeper) {
        Ok(desk) => {
            let (ended, keeper) = session_into(alloc, link, desk, settings, clock);
            Ran {
                status: ended_status(ended),
                keeper,
            }
        }
        Err(refused) => not_opened(alloc, link, refused),
    }
}

/// Serves one connection at an open store, and gives the keeper back, whose cells are those of its
/// state.
fn session_into<L: Link, K: Keeper, C: Clock>(
    alloc: Global,
    link: &mut L,
    desk: Desk<K>,
    settings: &Site,
    clock: &C,
) -> (Ended, K)
    ensures connection { (behind : Known Event) × IsLegal behind.list
        × Keeps (told_at behind.list) (state_at behind.list) (K.told result.1) × Connection
        (¬ (IsTrue K.is_sure)) (C.answers clock.now) settings.now result.0
        (line (L.traffic link.old) (L.read_faults link.old) (L.write_faults link.old))
        (line (L.traffic link.new) (L.read_faults link.new) (L.write_faults link.new))
        (opened desk.state desk.told) behind }
    ensures told { IsSome (K.told result.1) → IsSome desk.told }
    ensures bounded { ReadsRequests (L.traffic link.old) (L.traffic link.new) }
{
    let mut desk = desk;
    desk.stands();
    let ended = session_at_desk(alloc, link, &mut desk, settings, clock);
    let keeper = desk.into_keeper();
    (ended, keeper)
}

fn ended_status(ended: Ended) -> Status
    ensures { result ≡ ended_status ended }
{
    match ended {
        Ended::Closed => Status::Done,
        Ended::ReadFault => Status::ReadFault,
        Ended::WriteFault => Status::WriteFault,
        Ended::Memory => Status::Memory,
    }
}

// ---- a store that isn't opened

/// Tells why the store isn't opened, and gives the keeper back.
pub(crate) fn not_opened<L: Link, K: Keeper>(
    alloc: Global,
    link: &mut L,
    refused: NotOpened<K>,
) -> Ran<K>
    ensures told { Unopened (λ why. (why ≡ refused.why) × ¬ (why ≡ OpenError.Memory))
        (Rises (L.write_faults link.old) (L.write_faults link.new))
        (L.traffic link.old) (L.traffic link.new) result.status }
    ensures keeper { K.told result.keeper ≡ K.told refused.keeper }
    ensures bounded { ReadsLittle (L.traffic link.old) (L.traffic link.new) }
{
    let NotOpened { why, keeper } = refused;
    let status = unopened(alloc, link, why);
    Ran { status, keeper }
}

/// Tells why the store isn't opened.
fn unopened<L: Link>(alloc: Global, link: &mut L, error: OpenError) -> Status
    ensures told { Unopened (λ why. (why ≡ error) × ¬ (why ≡ OpenError.Memory))
        (Rises (L.write_faults link.old) (L.write_faults link.new))
        (L.traffic link.old) (L.traffic link.new) result }
    ensures bounded { ReadsLittle (L.traffic link.old) (L.traffic link.new) }
{
    match error {
        OpenError::Keeper => tell(link, Status::KeeperFailed, "keeper failed\n".as_bytes()),
        OpenError::Damaged { tab, key } => match damage_text(alloc, tab, key) {
            Ok(text) => tell(link, Status::Damaged { tab, key }, text.as_str().as_bytes()),
            Err(_) => Status::Memory,
        },
        OpenError::Memory => Status::Memory,
    }
}

/// Which cell of a store is damaged, as it is printed.
fn damage_text(alloc: Global, tab: u8, key: u64) -> Result<String, AllocError>
    ensures { IfOk result (λ text. string_bytes text ≡ damage_text tab key) }
{
    format!(in alloc; "store damaged: table {tab} key {key}\n")
}
