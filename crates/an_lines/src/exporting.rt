//! What a reader sees of a store, as lines that can be imported again.
ghost use Rattle.std.specs.Prelude.{◌≡◌, ◌<◌, IfOk, None, option_map};
ghost use Rattle.an_base.specs.Faults.{Rises};
ghost use Rattle.an_export.specs.Export.{exported};
ghost use Rattle.an_state.specs.State.{who_of};
ghost use Rattle.an_state.specs.View.{view_of};
ghost use Rattle.an_policy.specs.Audience.{identity};
ghost use Rattle.an_lines.specs.Export.{export_report, view_named};
ghost use Rattle.an_lines.specs.Status.{ReadsLittle, TellsReport};

use crate::asked::{NO_READER, by_of};
use crate::status::Status;
use crate::told::tell_report;
use crate::turn::reader;
use an_base::{Bytes, Steps};
use an_keep::Keeper;
use an_policy::{Caller, Who};
use an_shelf::Desk;
use an_state::Look;
use an_world::Link;
use std::alloc::{AllocError, Global};
use std::marker::Brand;
use std::sync::ledger::{Blank, Ledger};

/// Prints what the reader of this name sees of the store, or the anonymous caller where the name is
/// `-`: a line for each manifest and each annotation, which writes it as it is. A name that is no
/// live reader's is told. Nothing is read.
pub fn export<L: Link, K: Keeper>(alloc: Global, link: &mut L, desk: &Desk<K>, by: &str) -> Status
    requires nothing_waits { desk.now.waiting ≡ None }
    ensures exports { TellsReport (export_report desk.now.state by.now)
        (Rises (L.write_faults link.old) (L.write_faults link.new))
        (L.traffic link.old) (L.traffic link.new) result }
    ensures bounded { ReadsLittle (L.traffic link.old) (L.traffic link.new) }
{
    match exported(alloc, desk.look(), by) {
        Ok(Some(text)) => tell_report(link, Status::Done, text.as_slice()),
        Ok(None) => tell_report(link, Status::NoReader, NO_READER.as_bytes()),
        Err(_) => Status::Memory,
    }
}

/// The lines for who is named so, if there is somebody.
fn exported<T: Look>(alloc: Global, look: &T, by: &str) -> Result<Option<Bytes>, AllocError>
    ensures { IfOk result (λ text. text
        ≡ option_map exported (view_named (T.state look.now) by.now)) }
{
    match by_of(alloc, by)? {
        Some(by) => exported_to(alloc, look, &reader(by)),
        None => Ok(None),
    }
}

fn exported_to<T: Look>(
    alloc: Global,
    look: &T,
    caller: &Caller,
) -> Result<Option<Bytes>, AllocError>
    ensures { IfOk result (λ text. text ≡ option_map exported
        (option_map (view_of (T.state look.now)) (who_of (T.state look.now) caller.now))) }
{
    match look.who(caller) {
        Some(who) => Ok(Some(export_uncounted(alloc, look, &who)?)),
        None => Ok(None),
    }
}

/// The lines, whose steps nobody counts.
fn export_uncounted<T: Look>(alloc: Global, look: &T, who: &Who<'_>) -> Result<Bytes, AllocError>
    ensures { IfOk result (λ text. text
        ≡ exported (view_of (T.state look.now) (identity who.now))) }
{
    export_from::<T, Brand>(alloc, Blank::new(1), look, who)
}

fn export_from<T: Look, L: Ledger>(
    alloc: Global,
    blank: Blank,
    look: &T,
    who: &Who<'_>,
) -> Result<Bytes, AllocError>
    requires name { blank.name ≡ L.name }
    requires parts { blank.parts ≡ L.parts }
    requires some { 0 < blank.parts }
    ensures { IfOk result (λ text. text
        ≡ exported (view_of (T.state look.now) (identity who.now))) }
{
    let mut steps = Steps::<L>::new(blank);
    an_export::export(alloc, look, who, &mut steps)
}
