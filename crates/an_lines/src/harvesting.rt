//! What a caller finds of a store by the changes that it sees.
ghost use Rattle.std.specs.Prelude.{◌≡◌, ◌≤◌, ◌<◌, ◌^◌, ◌++◌, IfErr, IfOk, IsSome, IsTrue};
ghost use Rattle.std.specs.Prelude.{List, None, OnOk, drop, length, map, option_map};
ghost use Rattle.an_base.specs.Faults.{Rises};
ghost use Rattle.an_feed.specs.Served.{most_pages};
ghost use Rattle.an_feed.specs.Told.{change_told};
ghost use Rattle.an_harvest.specs.Live.{IsLive};
ghost use Rattle.an_harvest.specs.declared.known.KnownObject.{KnownObject};
ghost use Rattle.an_list.specs.Page.{page_count};
ghost use Rattle.an_policy.specs.Audience.{identity};
ghost use Rattle.an_rows.specs.Valid.{is_valid};
ghost use Rattle.an_state.specs.State.{who_of};
ghost use Rattle.an_state.specs.View.{view_by, view_of};
ghost use Rattle.an_lines.specs.Export.{no_reader, view_named};
ghost use Rattle.an_lines.specs.Harvest.{AreHarvested, Harvests, IsHarvest, is_too_long};
ghost use Rattle.an_lines.specs.Harvest.{kind_text, object_line, object_lines, objects_told};
ghost use Rattle.an_lines.specs.Harvest.{page_refused};
ghost use Rattle.an_lines.specs.Status.{ReadsLittle};
ghost use Rattle.an_lines.specs.Told.{IsTold};

use crate::asked::{NO_READER, by_of};
use crate::lines::Report;
use crate::seen_look::SeenLook;
use crate::status::Status;
use crate::stop::{TOO_LONG, refusal_line};
use crate::told::tell_report;
use crate::turn::reader;
use an_answers::LookFetch;
use an_harvest::{HarvestError, Known, KnownObject};
use an_keep::Keeper;
use an_list::{Paging, Site};
use an_policy::{Caller, Who};
use an_shelf::Desk;
use an_state::Look;
use an_world::Link;
use std::alloc::{AllocError, Global};

/// The number of the last page that can be asked for.
const MOST_PAGES: usize = 999_999_999;

/// Prints what the reader of this name harvests of the store, or the anonymous caller where the
/// name is `-`: a line for each manifest and each annotation that lives after the changes it sees,
/// ascending by IRI. A name that is no live reader's is reported. A stream whose last page can't be
/// asked for is refused. Nothing is read.
pub fn harvest<L: Link, K: Keeper>(
    alloc: Global,
    link: &mut L,
    desk: &Desk<K>,
    settings: &Site,
    by: &str,
) -> Status
    requires nothing_waits { desk.now.waiting ≡ None }
    ensures harvests { Harvests settings.now desk.now.state by.now
        (Rises (L.write_faults link.old) (L.write_faults link.new))
        (L.traffic link.old) (L.traffic link.new) result }
    ensures bounded { ReadsLittle (L.traffic link.old) (L.traffic link.new) }
{
    desk.stands();
    match harvested(alloc, desk.look(), settings, by) {
        Ok(report) => tell_report(link, report.status, report.text.as_slice()),
        Err(_) => Status::Memory,
    }
}

/// A harvest of a look by one of its callers, from what is known already, over answers to GETs of
/// the stream and its pages. Of a valid state nothing that is got is refused. Nobody has no stream.
pub fn harvest_look<T: Look>(
    alloc: Global,
    look: &T,
    site: &Site,
    caller: &Caller,
    known: &Known,
) -> Result<Known, HarvestError>
    requires valid { IsTrue (is_valid (T.state look.now)) }
    requires few { length (view_by (T.state look.now) caller.now).seen < 2 ^ 64 }
    requires pages { page_count (length (view_by (T.state look.now) caller.now).seen)
        site.now.size ≤ most_pages }
    requires within { known.now.items ≤ length (view_by (T.state look.now) caller.now).seen }
    ensures items { IfOk result (λ found. found.items
        ≡ length (view_by (T.state look.now) caller.now).seen) }
    ensures live { IfOk result (λ found. IsLive known.now.objects
        (map (change_told site.now.base)
        (drop known.now.items (view_by (T.state look.now) caller.now).seen)) found.objects) }
    ensures somebody { IsSome (who_of (T.state look.now) caller.now)
        → IfErr result (λ e. e ≡ HarvestError.Memory) }
    ensures nobody { who_of (T.state look.now) caller.now ≡ None
        → IfOk result (λ _. ⊥) }
    ensures unsigned { who_of (T.state look.now) caller.now ≡ None
        → IfErr result (λ e. ¬ (e ≡ HarvestError.Memory) → e ≡ HarvestError.Status 401) }
{
    let _size = site.size();
    let mut fetch = LookFetch::new(look, site, caller);
    an_harvest::harvest(alloc, &mut fetch, site.base(), known)
}

/// What a harvest reports to who is named so.
fn harvested<T: Look>(alloc: Global, look: &T, site: &Site, by: &str) -> Result<Report, AllocError>
    requires valid { IsTrue (is_valid (T.state look.now)) }
    ensures is { IfOk result (λ report. IsHarvest site.now (view_named (T.state look.now) by.now)
        (record { status = report.status; text = report.text.items })) }
    ensures told { IfOk result (λ report. IsTold report.status) }
{
    match by_of(alloc, by)? {
        Some(by) => harvested_by(alloc, look, site, &reader(by)),
        None => no_reader(alloc),
    }
}

/// What a harvest reports to a caller.
fn harvested_by<T: Look>(
    alloc: Global,
    look: &T,
    site: &Site,
    caller: &Caller,
) -> Result<Report, AllocError>
    requires valid { IsTrue (is_valid (T.state look.now)) }
    ensures is { IfOk result (λ report. IsHarvest site.now
        (option_map (view_of (T.state look.now)) (who_of (T.state look.now) caller.now))
        (record { status = report.status; text = report.text.items })) }
    ensures told { IfOk result (λ report. IsTold report.status) }
{
    match look.who(caller) {
        Some(who) => {
            if is_too_long(look, site, &who) {
                page_refused(alloc)
            } else {
                objects_told(alloc, look, who, site, caller)
            }
        }
        None => no_reader(alloc),
    }
}

/// Whether the last page of a caller's stream can't be asked for.
fn is_too_long<T: Look>(look: &T, site: &Site, who: &Who<'_>) -> bool
    ensures long { result ≡ is_too_long site.now (view_of (T.state look.now) (identity who.now)) }
    ensures few { length (view_of (T.state look.now) (identity who.now)).seen < 2 ^ 64 }
{
    let paging = Paging {
        page: 1,
        size: site.size(),
        total: look.seen_count(who),
    };
    paging.pages() > MOST_PAGES
}

/// The objects of a harvest are printed. The changes that the caller sees are kept meanwhile, so
/// that no page of them is looked for from the first change on.
fn objects_told<T: Look>(
    alloc: Global,
    look: &T,
    who: Who<'_>,
    site: &Site,
    caller: &Caller,
) -> Result<Report, AllocError>
    requires valid { IsTrue (is_valid (T.state look.now)) }
    requires few { length (view_by (T.state look.now) caller.now).seen < 2 ^ 64 }
    requires pages { page_count (length (view_by (T.state look.now) caller.now).seen)
        site.now.size ≤ most_pages }
    ensures is { IfOk result (λ report. (objects : List KnownObject)
        × AreHarvested site.now (view_by (T.state look.now) caller.now) objects
        × (record { status = report.status; text = report.text.items } ≡ objects_told objects)) }
    ensures told { IfOk result (λ report. IsTold report.status) }
{
    let kept = SeenLook::new(alloc, look, who)?;
    match harvest_look(alloc, &kept, site, caller, &Known::new(alloc)) {
        Ok(found) => Ok(Report {
            status: Status::Done,
            text: object_lines(alloc, found.objects())?,
        }),
        Err(_) => Err(AllocError),
    }
}

/// The lines of objects.
fn object_lines(alloc: Global, objects: &[KnownObject]) -> Result<Vec<u8>, AllocError>
    ensures { IfOk result (λ text. text.items ≡ object_lines objects.now) }
{
    let mut text = Vec::new(alloc);
    for object in objects {
        push_object(&mut text, object)?;
    }
    Ok(text)
}

/// Adds the line of an object: what it is, and its IRI.
fn push_object(text: &mut Vec<u8>, object: &KnownObject) -> Result<(), AllocError>
    ensures { OnOk result (text.new.items ≡ text.old.items ++ object_line object.now) }
{
    text.extend_from_slice(kind_text(object.manifest).as_bytes())?;
    text.extend_from_slice(object.id.as_str().as_bytes())?;
    text.extend_from_slice("\n".as_bytes())?;
    Ok(())
}

fn kind_text(manifest: bool) -> &'static str
    ensures { result.now ≡ kind_text manifest }
{
    if manifest { "Manifest " } else { "Annotation " }
}

/// The last page of the stream can't be asked for.
fn page_refused(alloc: Global) -> Result<Report, AllocError>
    ensures { IfOk result (λ report.
        record { status = report.status; text = report.text.items } ≡ page_refused) }
{
    let text = refusal_line(alloc, TOO_LONG)?;
    Ok(Report {
        status: Status::Refused,
        text: text.into_bytes(),
    })
}

/// The name is no live reader's.
fn no_reader(alloc: Global) -> Result<Report, AllocError>
    ensures { IfOk result (λ report.
        record { status = report.status; text = report.text.items } ≡ no_reader) }
{
    Ok(Report {
        status: Status::NoReader,
        text: Vec::from_slice(alloc, NO_READER.as_bytes())?,
    })
}
