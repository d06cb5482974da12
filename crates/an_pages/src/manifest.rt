ghost use Rattle.std.specs.Prelude.{◌≡◌, IfOk};
ghost use Rattle.serde_json.specs.Written.{compact_text};
ghost use Rattle.an_base.specs.Outcome.{Gives};
ghost use Rattle.an_policy.specs.Audience.{identity};
ghost use Rattle.an_state.specs.View.{view_of};
ghost use Rattle.an_served.specs.Manifest.{dressed};
ghost use Rattle.an_pages.specs.Bodies.{manifest_body, manifest_of_view};

use an_base::{Bytes, Name};
use an_keyed::Keyed;
use an_list::{ReadError, Site};
use an_manifest::KeptSheet;
use an_policy::Who;
use an_served::push_manifest;
use an_state::{Look, ManifestRow, shown_manifest};
use std::alloc::{AllocError, Global};

/// A manifest as the caller is shown it (IIIF Presentation API 3.0), with the search in its
/// annotations and a page of annotations in each canvas. A hidden manifest is answered as one that
/// never was.
#[tactic(auto, unfolding(crate::specs::Bodies::manifest_of_view))]
pub fn manifest_answer<T: Look>(
    alloc: Global,
    look: &T,
    who: &Who<'_>,
    name: &Name,
    site: &Site,
) -> Result<Bytes, ReadError>
    ensures answer { Gives (λ body. body) ReadError.Memory result (manifest_of_view site.now
        (view_of (T.state look.now) (identity who.now)) name.now) }
{
    match shown_manifest(look, who, name) {
        Some(row) => match row_body(alloc, row, site) {
            Ok(body) => match body {
                Some(body) => Ok(body),
                None => Err(ReadError::Absent),
            },
            Err(_) => Err(ReadError::Memory),
        },
        None => Err(ReadError::Absent),
    }
}

/// The text by which a manifest is served, while it is live.
fn row_body(alloc: Global, row: &ManifestRow, site: &Site) -> Result<Option<Bytes>, AllocError>
    ensures { IfOk result (λ body. body ≡ manifest_body site.now row.now) }
{
    match row.sheet() {
        Some(sheet) => Ok(Some(sheet_body(alloc, sheet, row.name(), site)?)),
        None => Ok(None),
    }
}

fn sheet_body(
    alloc: Global,
    sheet: &KeptSheet,
    name: &Name,
    site: &Site,
) -> Result<Bytes, AllocError>
    ensures { IfOk result (λ body. body
        ≡ compact_text (dressed site.now.base name.now sheet.now)) }
{
    let text = push_manifest(alloc, Vec::new(alloc), sheet, site.base(), name)?;
    Ok(Bytes::from_vec(text))
}
