ghost use Rattle.std.specs.Prelude.{◌≡◌, ◌+◌, ◌≤◌, [], string_bytes, IfOk, Some, option_map};
ghost use Rattle.an_base.specs.Outcome.{Gives};
ghost use Rattle.an_list.specs.Cost.{Takes};
ghost use Rattle.an_list.specs.Notes.{notes_text};
ghost use Rattle.an_manifest.specs.Manifest.{canvases_of};
ghost use Rattle.an_policy.specs.Audience.{identity};
ghost use Rattle.an_state.specs.View.{view_of};
ghost use Rattle.an_pages.specs.Canvas.{canvas_at, canvas_in, row_canvas, canvas_whole};
ghost use Rattle.an_pages.specs.Canvas.{region_form, presentation_context, notes_about};
ghost use Rattle.an_pages.specs.Canvas.{canvas_page_of};
ghost use Rattle.an_pages.specs.Cost.{about_cost, canvas_page_cost};

use crate::about::places_about;
use an_base::{Bytes, Name, Steps, Text};
use an_iri::canvas_iri;
use an_list::{NoteList, PagedList, ReadError, Site, page_of_notes};
use an_manifest::KeptSheet;
use an_policy::Who;
use an_selectors::Xywh;
use an_state::{Look, ManifestRow, shown_manifest};
use std::alloc::{AllocError, Global};
use std::sync::ledger::Ledger;

/// The context of annotation pages (IIIF Presentation API 3.0).
const PRESENTATION_CONTEXT: &str = "http://iiif.io/api/presentation/3/context.json";

/// A page of the annotations on a canvas that the caller may read (IIIF Presentation API 3.0), or
/// of those on a region of it. The canvases of a manifest are numbered from 1. A hidden manifest is
/// answered as one that never was.
#[tactic(auto, unfolding(crate::specs::Canvas::canvas_page_of))]
pub fn canvas_page<T: Look, L: Ledger>(
    alloc: Global,
    look: &T,
    who: &Who<'_>,
    name: &Name,
    canvas: u32,
    region: Option<Xywh>,
    page: u32,
    site: &Site,
    steps: &mut Steps<L>,
) -> Result<Bytes, ReadError>
    ensures answer { Gives (λ body. body) ReadError.Memory result (canvas_page_of site.now
        (view_of (T.state look.now) (identity who.now)) name.now canvas region page) }
    ensures steps { Takes ReadError.Memory result steps.old steps.new
        (canvas_page_cost site.now (view_of (T.state look.now) (identity who.now))
        name.now canvas region page) }
    ensures steps_most { steps.new ≤ steps.old
        + canvas_page_cost site.now (view_of (T.state look.now) (identity who.now))
        name.now canvas region page }
    ensures steps_least { steps.old ≤ steps.new }
{
    match shown_canvas(look, who, name, canvas) {
        Some(id) => {
            let whole = canvas_whole(alloc, site.base(), name, canvas, region)?;
            page_about(
                alloc, look, who, name, id, region, &whole, page, site, steps,
            )
        }
        None => Err(ReadError::Absent),
    }
}

/// The id of a canvas of a manifest that the caller may read.
fn shown_canvas<'a, T: Look>(
    look: &'a T,
    who: &Who<'_>,
    name: &Name,
    number: u32,
) -> Option<&'a str>
    ensures { option_map (λ s. s.now) result
        ≡ canvas_in (view_of (T.state look.now) (identity who.now)) name.now number }
{
    match shown_manifest(look, who, name) {
        Some(row) => row_canvas(row, number),
        None => None,
    }
}

fn row_canvas(row: &ManifestRow, number: u32) -> Option<&str>
    ensures { option_map (λ s. s.now) result ≡ row_canvas number row.now }
{
    match row.sheet() {
        Some(sheet) => sheet_canvas(sheet, number),
        None => None,
    }
}

fn sheet_canvas(sheet: &KeptSheet, number: u32) -> Option<&str>
    ensures { option_map (λ s. s.now) result ≡ canvas_at number (canvases_of sheet.now) }
{
    canvas_at(sheet.canvases(), number)
}

/// The id of the canvas of this number, from 1.
fn canvas_at(canvases: &[Text], number: u32) -> Option<&str>
    ensures { option_map (λ s. s.now) result ≡ canvas_at number canvases.now }
{
    if 0 < number {
        match canvases.get(number as usize - 1) {
            Some(id) => Some(id.as_str()),
            None => None,
        }
    } else {
        None
    }
}

/// A page of what is about the canvas of this id, or the region of it.
fn page_about<T: Look, L: Ledger>(
    alloc: Global,
    look: &T,
    who: &Who<'_>,
    name: &Name,
    canvas: &str,
    region: Option<Xywh>,
    whole: &PagedList,
    page: u32,
    site: &Site,
    steps: &mut Steps<L>,
) -> Result<Bytes, ReadError>
    ensures body { Gives (λ body. body) ReadError.Memory result
        (notes_text site.now presentation_context whole.now page [] [] (notes_about
        (view_of (T.state look.now) (identity who.now)) name.now canvas.now region)) }
    ensures steps { Takes ReadError.Memory result steps.old steps.new
        (about_cost site.now (view_of (T.state look.now) (identity who.now)) name.now
        region page canvas.now) }
    ensures steps_most { steps.new ≤ steps.old
        + about_cost site.now (view_of (T.state look.now) (identity who.now)) name.now
        region page canvas.now }
    ensures steps_least { steps.old ≤ steps.new }
{
    let places = places_about(alloc, look, who, name, canvas, region, steps)?;
    let list = NoteList {
        whole,
        context: PRESENTATION_CONTEXT,
        terms: &[],
        ignored: &[],
    };
    page_of_notes(alloc, look, site, &list, page, places.as_slice(), steps)
}

/// All annotations on the canvas, or on the region of it.
fn canvas_whole(
    alloc: Global,
    base: &str,
    name: &Name,
    canvas: u32,
    region: Option<Xywh>,
) -> Result<PagedList, AllocError>
    ensures { IfOk result (λ whole. whole ≡ canvas_whole base.now name.now canvas region) }
{
    let path = canvas_iri(alloc, base, name.as_str(), canvas)?;
    let parameters = region_form(alloc, region)?;
    Ok(PagedList {
        path: Text::from_string(path),
        parameters: Text::from_string(parameters),
    })
}

/// The region as a form.
fn region_form(alloc: Global, region: Option<Xywh>) -> Result<String, AllocError>
    ensures { IfOk result (λ form. string_bytes form ≡ region_form region) }
{
    match region {
        Some(region) => numbers_form(alloc, region),
        None => Ok(String::new(alloc)),
    }
}

fn numbers_form(alloc: Global, region: Xywh) -> Result<String, AllocError>
    ensures { IfOk result (λ form. string_bytes form ≡ region_form (Some region)) }
{
    let Xywh { x, y, w, h } = region;
    format!(in alloc; "xywh={x}%2C{y}%2C{w}%2C{h}")
}
