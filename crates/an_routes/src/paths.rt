//! The paths of the server: the table of their kinds, and the path of a target's segments.
ghost use Rattle.std.specs.Prelude.{◌≡◌, IfOk, option_and_then};
ghost use Rattle.an_routes.specs.Paths.{anchors_path, canvas_path, changes_path};
ghost use Rattle.an_routes.specs.Paths.{collection_path, container_path, gather_path};
ghost use Rattle.an_routes.specs.Paths.{kind_of, manifest_part, manifest_path, methods_of};
ghost use Rattle.an_routes.specs.Paths.{name_alone, named_path, note_part, note_path, object_kind};
ghost use Rattle.an_routes.specs.Paths.{orphans_path, path_of, row_of};
ghost use Rattle.an_routes.specs.Target.{segments_of};

use crate::target::segments_of;
use an_base::{Name, Text, name_in};
use an_code::Parameter;
use an_http::Allow;
use an_query::number_in;
use an_state::Object;
use std::alloc::{AllocError, Global};

/// A kind of path.
#[derive(Clone, Copy, Debug, PartialEq, Eq)]
pub(crate) enum Kind {
    /// `/readers/N`
    Reader,
    /// `/manifests/M`
    Manifest,
    /// `/annotations/OWNER/N`
    Note,
    /// `/search/M`
    Search,
    /// `/autocomplete/M`
    Complete,
    /// `/manifests/M/canvases/K`
    Canvas,
    /// `/manifests/M/annotations/`
    Container,
    /// `/changes`
    Changes,
    /// `/annotations/OWNER/N/anchors`
    Anchors,
    /// `/manifests/M/orphans`
    Orphans,
    /// `/collection`
    Collection,
    /// `/gather/search`
    GatherSearch,
    /// `/gather/autocomplete`
    GatherComplete,
}

impl Kind {
    /// The methods of its paths.
    pub(crate) fn methods(self) -> Allow
        ensures { result ≡ methods_of self }
    {
        match self {
            Kind::Reader => Allow::WriteOnly,
            Kind::Manifest => Allow::Full,
            Kind::Note => Allow::Full,
            Kind::Search => Allow::ReadOnly,
            Kind::Complete => Allow::ReadOnly,
            Kind::Canvas => Allow::ReadOnly,
            Kind::Container => Allow::ReadOnly,
            Kind::Changes => Allow::ReadOnly,
            Kind::Anchors => Allow::ReadOnly,
            Kind::Orphans => Allow::ReadOnly,
            Kind::Collection => Allow::ReadOnly,
            Kind::GatherSearch => Allow::ReadOnly,
            Kind::GatherComplete => Allow::ReadOnly,
        }
    }
}

/// The parameters that a GET reads which changes nothing by them.
pub(crate) const READS_NOTHING: [Parameter; 0] = [];

/// Those of a GET on a canvas.
pub(crate) const CANVAS_READS: [Parameter; 2] = [Parameter::Page, Parameter::Xywh];

/// Those of a GET of a container.
pub(crate) const CONTAINER_READS: [Parameter; 2] = [Parameter::Page, Parameter::Iris];

/// Those of a GET of the changes, or of comments.
pub(crate) const PAGE_READS: [Parameter; 1] = [Parameter::Page];

/// Those of a PUT of a reader, and of each DELETE.
pub(crate) const NUMBER_READS: [Parameter; 1] = [Parameter::Version];

/// Those of a PUT of a manifest.
pub(crate) const MANIFEST_READS: [Parameter; 2] = [Parameter::Version, Parameter::Group];

/// Those of a PUT of an annotation.
pub(crate) const NOTE_READS: [Parameter; 3] = [
    Parameter::Version,
    Parameter::Manifest,
    Parameter::Group,
];

/// The parameters that a PUT of the object reads.
pub(crate) fn put_reads(object: &Object) -> &'static [Parameter]
    ensures { result.now ≡ (row_of (object_kind object.now)).put }
{
    match object {
        Object::Reader(_) => &NUMBER_READS,
        Object::Manifest(_) => &MANIFEST_READS,
        Object::Note { .. } => &NOTE_READS,
    }
}

/// A path of the server.
#[derive(Debug, Drop)]
pub(crate) enum Path {
    /// A reader, a manifest or an annotation.
    Object(Object),
    Search { manifest: Name },
    Complete { manifest: Name },
    Canvas { manifest: Name, canvas: u32 },
    Container { manifest: Name },
    Changes,
    Anchors { owner: Name, name: Name },
    Orphans { manifest: Name },
    Collection,
    GatherSearch,
    GatherComplete,
}

impl Path {
    pub(crate) fn kind(&self) -> Kind
        ensures { result ≡ kind_of self.now }
    {
        match self {
            Path::Object(object) => object_kind(object),
            Path::Search { .. } => Kind::Search,
            Path::Complete { .. } => Kind::Complete,
            Path::Canvas { .. } => Kind::Canvas,
            Path::Container { .. } => Kind::Container,
            Path::Changes => Kind::Changes,
            Path::Anchors { .. } => Kind::Anchors,
            Path::Orphans { .. } => Kind::Orphans,
            Path::Collection => Kind::Collection,
            Path::GatherSearch => Kind::GatherSearch,
            Path::GatherComplete => Kind::GatherComplete,
        }
    }
}

fn object_kind(object: &Object) -> Kind
    ensures { result ≡ object_kind object.now }
{
    match object {
        Object::Reader(_) => Kind::Reader,
        Object::Manifest(_) => Kind::Manifest,
        Object::Note { .. } => Kind::Note,
    }
}

/// The path that a target names, if the server has it.
pub(crate) fn path_in(alloc: Global, path: &str) -> Result<Option<Path>, AllocError>
    ensures { IfOk result (λ found. found ≡ option_and_then path_of (segments_of path.now)) }
{
    match segments_of(alloc, path)? {
        Some(segments) => path_of(alloc, segments.as_slice()),
        None => Ok(None),
    }
}

/// The path of these segments.
#[tactic(auto, unfolding(crate::specs::Paths::path_of))]
fn path_of(alloc: Global, segments: &[Text]) -> Result<Option<Path>, AllocError>
    ensures { IfOk result (λ found. found ≡ path_of segments.now) }
{
    match segments {
        [kind, rest @ ..] => match kind.as_str() {
            "readers" => reader_path(alloc, rest),
            "manifests" => manifest_path(alloc, rest),
            "annotations" => note_path(alloc, rest),
            "search" => search_path(alloc, rest),
            "autocomplete" => complete_path(alloc, rest),
            "changes" => Ok(changes_path(rest)),
            "collection" => Ok(collection_path(rest)),
            "gather" => Ok(gather_path(rest)),
            _ => Ok(None),
        },
        [] => Ok(None),
    }
}

/// `/changes`
fn changes_path(rest: &[Text]) -> Option<Path>
    ensures { result ≡ changes_path rest.now }
{
    match rest {
        [] => Some(Path::Changes),
        _ => None,
    }
}

/// `/collection`
fn collection_path(rest: &[Text]) -> Option<Path>
    ensures { result ≡ collection_path rest.now }
{
    match rest {
        [] => Some(Path::Collection),
        _ => None,
    }
}

/// `/gather/search` and `/gather/autocomplete`
fn gather_path(rest: &[Text]) -> Option<Path>
    ensures { result ≡ gather_path rest.now }
{
    match rest {
        [part] => match part.as_str() {
            "search" => Some(Path::GatherSearch),
            "autocomplete" => Some(Path::GatherComplete),
            _ => None,
        },
        _ => None,
    }
}

/// `/readers/N`
fn reader_path(alloc: Global, rest: &[Text]) -> Result<Option<Path>, AllocError>
    ensures { IfOk result (λ found. found
        ≡ named_path (λ name. Path.Object (Object.Reader name)) rest.now) }
{
    match name_alone(alloc, rest)? {
        Some(name) => Ok(Some(Path::Object(Object::Reader(name)))),
        None => Ok(None),
    }
}

/// `/search/M`
fn search_path(alloc: Global, rest: &[Text]) -> Result<Option<Path>, AllocError>
    ensures { IfOk result (λ found. found ≡ named_path Path.Search rest.now) }
{
    match name_alone(alloc, rest)? {
        Some(manifest) => Ok(Some(Path::Search { manifest })),
        None => Ok(None),
    }
}

/// `/autocomplete/M`
fn complete_path(alloc: Global, rest: &[Text]) -> Result<Option<Path>, AllocError>
    ensures { IfOk result (λ found. found ≡ named_path Path.Complete rest.now) }
{
    match name_alone(alloc, rest)? {
        Some(manifest) => Ok(Some(Path::Complete { manifest })),
        None => Ok(None),
    }
}

/// The name that the segments are, if they are one alone.
fn name_alone(alloc: Global, segments: &[Text]) -> Result<Option<Name>, AllocError>
    ensures { IfOk result (λ name. name ≡ name_alone segments.now) }
{
    match segments {
        [name] => name_in(alloc, name.as_str()),
        _ => Ok(None),
    }
}

/// `/manifests/M`, and what stands behind it.
fn manifest_path(alloc: Global, rest: &[Text]) -> Result<Option<Path>, AllocError>
    ensures { IfOk result (λ found. found ≡ manifest_path rest.now) }
{
    match rest {
        [name, rest @ ..] => match name_in(alloc, name.as_str())? {
            Some(manifest) => Ok(manifest_part(manifest, rest)),
            None => Ok(None),
        },
        [] => Ok(None),
    }
}

fn manifest_part(manifest: Name, rest: &[Text]) -> Option<Path>
    ensures { result ≡ manifest_part manifest rest.now }
{
    match rest {
        [] => Some(Path::Object(Object::Manifest(manifest))),
        [part] => orphans_path(manifest, part.as_str()),
        [part, last] => match part.as_str() {
            "annotations" => container_path(manifest, last.as_str()),
            "canvases" => canvas_path(manifest, last.as_str()),
            _ => None,
        },
        _ => None,
    }
}

/// `/manifests/M/orphans`
fn orphans_path(manifest: Name, part: &str) -> Option<Path>
    ensures { result ≡ orphans_path manifest part.now }
{
    match part {
        "orphans" => Some(Path::Orphans { manifest }),
        _ => None,
    }
}

/// Nothing stands behind the last `/`.
fn container_path(manifest: Name, last: &str) -> Option<Path>
    ensures { result ≡ container_path manifest last.now }
{
    if last.is_empty() {
        Some(Path::Container { manifest })
    } else {
        None
    }
}

fn canvas_path(manifest: Name, last: &str) -> Option<Path>
    ensures { result ≡ canvas_path manifest last.now }
{
    match number_in(last) {
        Some(canvas) => Some(Path::Canvas { manifest, canvas }),
        None => None,
    }
}

/// `/annotations/OWNER/N`, and what stands behind it.
fn note_path(alloc: Global, rest: &[Text]) -> Result<Option<Path>, AllocError>
    ensures { IfOk result (λ found. found ≡ note_path rest.now) }
{
    match rest {
        [owner, name, rest @ ..] => match name_in(alloc, owner.as_str())? {
            Some(owner) => match name_in(alloc, name.as_str())? {
                Some(name) => Ok(note_part(owner, name, rest)),
                None => Ok(None),
            },
            None => Ok(None),
        },
        _ => Ok(None),
    }
}

fn note_part(owner: Name, name: Name, rest: &[Text]) -> Option<Path>
    ensures { result ≡ note_part owner name rest.now }
{
    match rest {
        [] => Some(Path::Object(Object::Note { owner, name })),
        [part] => anchors_path(owner, name, part.as_str()),
        _ => None,
    }
}

/// `/annotations/OWNER/N/anchors`
fn anchors_path(owner: Name, name: Name, part: &str) -> Option<Path>
    ensures { result ≡ anchors_path owner name part.now }
{
    match part {
        "anchors" => Some(Path::Anchors { owner, name }),
        _ => None,
    }
}
