ghost use Rattle.std.specs.Prelude.{◌≡◌, IfOk, IfSome, IsSome, IsTrue, List, None, Some, false, map};
ghost use Rattle.std.specs.Prelude.{string_bytes};
ghost use Rattle.an_app.specs.Outside.{outside_of};
ghost use Rattle.an_app.specs.Runs.{Runs};
ghost use Rattle.an_base.specs.Faults.{Rises};
ghost use Rattle.an_app.specs.Form.{form_of};
ghost use Rattle.an_keep.specs.declared.cell.Cell.{Cell};
ghost use Rattle.an_session.specs.Session.{line};
ghost use Rattle.an_sqlite.specs.Hold.{Hold};
ghost use Rattle.an_sqlite.specs.Connecting.{IsClean, connection_in, told_in};
ghost use Rattle.anno.specs.Filed.{asks_store, has_store};
ghost use Rattle.sqlite.specs.Files.{over_files};
ghost use Rattle.sqlite_wal.specs.Files.{image_at};

use crate::host::Host;
use crate::progress::ToldKeeper;
use crate::tcp_door::TcpDoor;
use an_app::{Form, Ran, form_of, run};
use an_keep::KeepError;
use an_sqlite::{SqlKeeper, keeper_at};
use an_world::{Clock, Link};
use sqlite::{Alter, FileFrom, FileStore, Start};
use std::alloc::{AllocError, Global};
use std::io::IsTerminal;
use std::net::{Net, TcpListener, TcpStream};
use std::sync::Wait;
use std::thread::Threads;

/// Does what the words say at the store that stands in the file at this path, and gives the keeper
/// back. `U` stands for what the file and its log held, which may be anything: where they held
/// exactly the table of these cells, and the disk returned what was written, the run is that of a
/// keeper which told these cells before it. No file is made unless the words ask for a store.
pub fn run_at<
    R: Threads + Wait + Net<Listener = TcpListener, Stream = TcpStream> + Sync,
    U: Start + Send,
    L: Link,
    C: Clock + Sync,
>(
    rt: &R,
    host: &HostRuntime,
    words: &[String],
    path: &str,
    start: U,
    link: &mut L,
    door: &mut TcpDoor<'_, Host<'_, R>>,
    clock: &C,
) -> Ran<SqlKeeper<FileStore<FileFrom<U>>>>
    requires unbound { door.old.tally.port ≡ 0 }
    ensures found { (cells : List Cell) → Hold (image_at U.Start) cells
        → IsSome (told_in over_files result.keeper.place)
        → IfSome (form_of (map string_bytes words.now)) (Runs
        (outside_of (Some cells) (told_in over_files result.keeper.place) (¬ (IsTrue false))
        (Rises (L.read_faults link.old) (L.read_faults link.new))
        (Rises (L.write_faults link.old) (L.write_faults link.new)))
        (record { tally = door.new.tally; faults = door.new.faults })
        (C.answers clock.now)
        (line (L.traffic link.old) (L.read_faults link.old) (L.write_faults link.old))
        (line (L.traffic link.new) (L.read_faults link.new) (L.write_faults link.new))
        result.status) }
{
    let keeper = keeper_for(host, words, path, start);
    run_kept(rt, host, words, keeper, link, door, clock)
}

/// The keeper over the file at this path, where the words ask for a store, and else one that has
/// none.
fn keeper_for<U: Start>(
    host: &HostRuntime,
    words: &[String],
    path: &str,
    start: U,
) -> SqlKeeper<FileStore<FileFrom<U>>>
    ensures tells { IsClean over_files result.place → (cells : List Cell)
        → Hold (image_at U.Start) cells → told_in over_files result.place ≡ Some cells }
    ensures unasked { asks_store (map string_bytes words.now) ≡ false
        → connection_in result.place ≡ None }
{
    match asks_store(host.alloc(), words) {
        Ok(true) => keeper_at(host, path, start),
        Ok(false) => SqlKeeper::refused(KeepError::Failed),
        Err(_) => SqlKeeper::refused(KeepError::Memory),
    }
}

/// Whether the words are of a form that opens the store.
fn asks_store(alloc: Global, words: &[String]) -> Result<bool, AllocError>
    ensures { IfOk result (λ asks. asks ≡ asks_store (map string_bytes words.now)) }
{
    match form_of(alloc, words)? {
        Some(form) => Ok(has_store(&form)),
        None => Ok(false),
    }
}

fn has_store(form: &Form) -> bool
    ensures { result ≡ has_store form.now }
{
    match form {
        Form::Find(_) => false,
        Form::Import => true,
        Form::Export(_) => true,
        Form::Harvest { settings: _, by: _ } => true,
        Form::Session(_) => true,
        Form::Serve(_) => true,
        Form::Trial { count: _, seed: _ } => false,
    }
}

/// Does what the words say at the store of this keeper, whose progress is reported meanwhile, and
/// what a server did at its end.
fn run_kept<
    R: Threads + Wait + Net<Listener = TcpListener, Stream = TcpStream> + Sync,
    S: Alter + Drop + Send,
    L: Link,
    C: Clock + Sync,
>(
    rt: &R,
    host: &HostRuntime,
    words: &[String],
    keeper: SqlKeeper<S>,
    link: &mut L,
    door: &mut TcpDoor<'_, Host<'_, R>>,
    clock: &C,
) -> Ran<SqlKeeper<S>>
    requires unbound { door.old.tally.port ≡ 0 }
    ensures runs { IfSome (form_of (map string_bytes words.now)) (Runs
        (outside_of (told_in S.Store keeper.place) (told_in S.Store result.keeper.place)
        (¬ (IsTrue false))
        (Rises (L.read_faults link.old) (L.read_faults link.new))
        (Rises (L.write_faults link.old) (L.write_faults link.new)))
        (record { tally = door.new.tally; faults = door.new.faults })
        (C.answers clock.now)
        (line (L.traffic link.old) (L.read_faults link.old) (L.write_faults link.old))
        (line (L.traffic link.new) (L.read_faults link.new) (L.write_faults link.new))
        result.status) }
    ensures never { IsSome (told_in S.Store result.keeper.place)
        → IsSome (told_in S.Store keeper.place) }
{
    let told = ToldKeeper::over(host, keeper, are_writes_told(host, words));
    let Ran { status, keeper } = run(rt, host.alloc(), words, told, link, door, clock);
    door.report_end(Some(keeper.commits()));
    Ran {
        status,
        keeper: keeper.into_keeper(),
    }
}

/// Whether somebody at a terminal waits for an import.
fn are_writes_told(host: &HostRuntime, words: &[String]) -> bool {
    match words {
        [_, form] => form.as_str() == "import" && host.stderr().is_terminal(),
        _ => false,
    }
}

/// Copies the log into the database file. Where that fails the two hold the cells together, as they
/// do after each commit. A plain drop would leave the last commits in the log.
pub fn close<U: Start>(keeper: SqlKeeper<FileStore<FileFrom<U>>>) {
    match keeper.into_connection() {
        Some(connection) => {
            let _ = connection.close();
        }
        None => {}
    }
}
