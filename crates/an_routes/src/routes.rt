ghost use Rattle.std.specs.Prelude.{◌≡◌, [], IfOk, Ok, Some};
ghost use Rattle.an_base.specs.Outcome.{Gives};
ghost use Rattle.an_complete.specs.Ask.{ask_of};
ghost use Rattle.an_gather.specs.Gather.{gather_ask_of, gather_of};
ghost use Rattle.an_query.specs.Query.{query_of};
ghost use Rattle.an_routes.specs.Paths.{page_reads, row_of};
ghost use Rattle.an_routes.specs.Query.{given_of};
ghost use Rattle.an_routes.specs.Routes.{changes_read, container_at, container_read, canvas_read};
ghost use Rattle.an_routes.specs.Routes.{manifest_put, note_put, put_with, put_of, deletion};
ghost use Rattle.an_routes.specs.Routes.{deletion_of, written, put_at, delete_at, searched};
ghost use Rattle.an_routes.specs.Routes.{query_refused, completed, ask_refused, shown};
ghost use Rattle.an_routes.specs.Routes.{gather_ask_refused, gather_completed, gather_refused};
ghost use Rattle.an_routes.specs.Routes.{gathered, object_read, page_asked, read_at, reading};
ghost use Rattle.an_routes.specs.Routes.{meant_at, route_at, route_to, route_of};
ghost use Rattle.an_routes.specs.declared.paths.Kind.TheVariants as kind;

use crate::kinds::{Read, Route, RouteError, Unrouted, WriteRoute};
use crate::paths::{
    CANVAS_READS, CONTAINER_READS, NUMBER_READS, PAGE_READS, Path, READS_NOTHING, path_in,
    put_reads,
};
use crate::query::{
    given_in, group_of, inner_of, iris_of, manifest_of, page_of, page_or_first, region_of,
    version_of,
};
use crate::target::target_parts;
use an_base::Name;
use an_code::Code;
use an_complete::{AskError, read_ask};
use an_gather::{GatherAskError, GatherError, read_gather, read_gather_ask};
use an_http::Method;
use an_query::{Pair, QueryError, SEARCH_PARAMETERS, read_query};
use an_state::Object;
use std::alloc::{AllocError, Global};

/// The route of a method and a target as it was sent, or the first refusal: of the target, of
/// the path, of the method, and last of the query, which OPTIONS doesn't read.
///
/// Segments and parameters are percent-decoded. Parameters that the path and method don't read are
/// passed over, but must be UTF-8 too.
#[tactic(auto, unfolding(crate::specs::Routes::route_of))]
pub fn route(alloc: Global, method: Option<Method>, target: &str) -> Result<Route, RouteError>
    ensures route { Gives
        (λ route. route) RouteError.Memory result (route_of method target.now) }
{
    match target_parts(target) {
        Some((path, query)) => route_to(alloc, method, path, query),
        None => Err(RouteError::Target),
    }
}

fn route_to(
    alloc: Global,
    method: Option<Method>,
    path: &str,
    query: &str,
) -> Result<Route, RouteError>
    ensures { Gives (λ route. route) RouteError.Memory result
        (route_to method (Some (path.now, query.now))) }
{
    match path_in(alloc, path) {
        Ok(found) => match found {
            Some(path) => route_at(alloc, path, query, method),
            None => Err(RouteError::Route),
        },
        Err(_) => Err(RouteError::Memory),
    }
}

/// The route of a method at a path, or the first refusal.
fn route_at(
    alloc: Global,
    path: Path,
    query: &str,
    method: Option<Method>,
) -> Result<Route, RouteError>
    ensures { Gives (λ route. route) RouteError.Memory result (route_at path query.now method) }
{
    let allow = path.kind().methods();
    match meant_at(alloc, path, query, method) {
        Ok(route) => Ok(route),
        Err(error) => match error {
            Unrouted::Method => Err(RouteError::Method { allow }),
            Unrouted::Query(code) => Err(RouteError::Query { allow, code }),
            Unrouted::Memory => Err(RouteError::Memory),
        },
    }
}

fn meant_at(
    alloc: Global,
    path: Path,
    query: &str,
    method: Option<Method>,
) -> Result<Route, Unrouted>
    ensures { Gives (λ route. route) Unrouted.Memory result (meant_at path query.now method) }
{
    match method {
        Some(Method::Options) => Ok(Route::Options(path.kind().methods())),
        Some(Method::Get) => reading(read_at(alloc, path, query)),
        Some(Method::Head) => reading(read_at(alloc, path, query)),
        Some(Method::Put) => put_at(alloc, path, query),
        Some(Method::Delete) => delete_at(alloc, path, query),
        None => Err(Unrouted::Method),
    }
}

// ---- reads

fn reading(read: Result<Read, Unrouted>) -> Result<Route, Unrouted>
    ensures { result ≡ reading read }
{
    match read {
        Ok(read) => Ok(Route::Read(read)),
        Err(why) => Err(why),
    }
}

fn read_at(alloc: Global, path: Path, query: &str) -> Result<Read, Unrouted>
    ensures { Gives (λ read. read) Unrouted.Memory result (read_at path query.now) }
{
    match path {
        Path::Object(object) => object_read(alloc, object, query),
        Path::Search { manifest } => searched(alloc, manifest, query),
        Path::Complete { manifest } => completed(alloc, manifest, query),
        Path::Canvas { manifest, canvas } => canvas_read(alloc, manifest, canvas, query),
        Path::Container { manifest } => container_read(alloc, manifest, query),
        Path::Changes => changes_read(alloc, query),
        Path::Anchors { owner, name } => {
            let page = page_in(alloc, query)?;
            Ok(Read::Anchors { owner, name, page })
        }
        Path::Orphans { manifest } => {
            let page = page_in(alloc, query)?;
            Ok(Read::Orphans { manifest, page })
        }
        Path::Collection => shown(alloc, Read::Collection, query),
        Path::GatherSearch => gathered(alloc, query),
        Path::GatherComplete => gather_completed(alloc, query),
    }
}

fn object_read(alloc: Global, object: Object, query: &str) -> Result<Read, Unrouted>
    ensures { Gives (λ read. read) Unrouted.Memory result (object_read object query.now) }
{
    match object {
        Object::Reader(_) => Err(Unrouted::Method),
        Object::Manifest(name) => shown(alloc, Read::Manifest { name }, query),
        Object::Note { owner, name } => shown(alloc, Read::Note { owner, name }, query),
    }
}

/// The stream of changes, or a page of it.
fn changes_read(alloc: Global, query: &str) -> Result<Read, Unrouted>
    ensures { Gives (λ read. read) Unrouted.Memory result
        (changes_read (given_of (row_of kind.Changes).get query.now)) }
{
    match given_in(alloc, &PAGE_READS, query) {
        Ok(Ok(given)) => match page_of(given.as_slice()) {
            Ok(Some(page)) => Ok(Read::ChangesPage { page }),
            Ok(None) => Ok(Read::Changes),
            Err(code) => Err(Unrouted::Query(code)),
        },
        Ok(Err(code)) => Err(Unrouted::Query(code)),
        Err(_) => Err(Unrouted::Memory),
    }
}

/// A container, or a page of it.
fn container_read(alloc: Global, manifest: Name, query: &str) -> Result<Read, Unrouted>
    ensures { Gives (λ read. read) Unrouted.Memory result
        (container_read manifest (given_of (row_of kind.Container).get query.now)) }
{
    match given_in(alloc, &CONTAINER_READS, query) {
        Ok(Ok(given)) => container_given(manifest, given.as_slice()),
        Ok(Err(code)) => Err(Unrouted::Query(code)),
        Err(_) => Err(Unrouted::Memory),
    }
}

fn container_given(manifest: Name, given: &[Pair]) -> Result<Read, Unrouted>
    ensures { result ≡ container_read manifest (Ok given.now) }
{
    match page_of(given) {
        Ok(page) => match iris_of(given) {
            Ok(iris) => Ok(container_at(manifest, page, iris)),
            Err(code) => Err(Unrouted::Query(code)),
        },
        Err(code) => Err(Unrouted::Query(code)),
    }
}

fn container_at(manifest: Name, page: Option<u32>, iris: bool) -> Read
    ensures { result ≡ container_at manifest page iris }
{
    match page {
        Some(page) => Read::ContainerPage {
            manifest,
            page,
            iris,
        },
        None => Read::Container { manifest, iris },
    }
}

/// A page of the annotations on a canvas, the first where none is asked for.
fn canvas_read(alloc: Global, manifest: Name, canvas: u32, query: &str) -> Result<Read, Unrouted>
    ensures { Gives (λ read. read) Unrouted.Memory result
        (canvas_read manifest canvas (given_of (row_of kind.Canvas).get query.now)) }
{
    match given_in(alloc, &CANVAS_READS, query) {
        Ok(Ok(given)) => canvas_given(manifest, canvas, given.as_slice()),
        Ok(Err(code)) => Err(Unrouted::Query(code)),
        Err(_) => Err(Unrouted::Memory),
    }
}

fn canvas_given(manifest: Name, canvas: u32, given: &[Pair]) -> Result<Read, Unrouted>
    ensures { result ≡ canvas_read manifest canvas (Ok given.now) }
{
    match page_or_first(given) {
        Ok(page) => match region_of(given) {
            Ok(region) => Ok(Read::Canvas {
                manifest,
                canvas,
                region,
                page,
            }),
            Err(code) => Err(Unrouted::Query(code)),
        },
        Err(code) => Err(Unrouted::Query(code)),
    }
}

/// The page that a query asks for, the first where it asks for none.
fn page_in(alloc: Global, query: &str) -> Result<u32, Unrouted>
    ensures { Gives (λ page. page) Unrouted.Memory result
        (page_asked (given_of page_reads query.now)) }
{
    match given_in(alloc, &PAGE_READS, query) {
        Ok(Ok(given)) => match page_or_first(given.as_slice()) {
            Ok(page) => Ok(page),
            Err(code) => Err(Unrouted::Query(code)),
        },
        Ok(Err(code)) => Err(Unrouted::Query(code)),
        Err(_) => Err(Unrouted::Memory),
    }
}

/// A read that no parameter changes.
fn shown(alloc: Global, read: Read, query: &str) -> Result<Read, Unrouted>
    ensures { Gives (λ read. read) Unrouted.Memory result
        (shown read (given_of [] query.now)) }
{
    match given_in(alloc, &READS_NOTHING, query) {
        Ok(given) => match given {
            Ok(_) => Ok(read),
            Err(code) => Err(Unrouted::Query(code)),
        },
        Err(_) => Err(Unrouted::Memory),
    }
}

/// A search with its query, or the first refusal of the query.
fn searched(alloc: Global, manifest: Name, query: &str) -> Result<Read, Unrouted>
    ensures { Gives (λ read. read) Unrouted.Memory result
        (searched manifest (query_of (row_of kind.Search).get query.now)) }
{
    match read_query(alloc, &SEARCH_PARAMETERS, query) {
        Ok(query) => Ok(Read::Search { manifest, query }),
        Err(error) => Err(query_refused(error)),
    }
}

fn query_refused(error: QueryError) -> Unrouted
    ensures { result ≡ query_refused error }
{
    match error {
        QueryError::Twice { name } => Unrouted::Query(Code::Twice { name }),
        QueryError::Date { at } => Unrouted::Query(Code::Date { at }),
        QueryError::Page => Unrouted::Query(Code::Page),
        QueryError::Bytes => Unrouted::Query(Code::Bytes),
        QueryError::Memory => Unrouted::Memory,
    }
}

/// A completion with what it asks, or the first refusal of that.
fn completed(alloc: Global, manifest: Name, query: &str) -> Result<Read, Unrouted>
    ensures { Gives (λ read. read) Unrouted.Memory result
        (completed manifest (ask_of query.now)) }
{
    match read_ask(alloc, query) {
        Ok(ask) => Ok(Read::Complete { manifest, ask }),
        Err(error) => Err(ask_refused(error)),
    }
}

fn ask_refused(error: AskError) -> Unrouted
    ensures { result ≡ ask_refused error }
{
    match error {
        AskError::NoPrefix => Unrouted::Query(Code::Prefix),
        AskError::Min => Unrouted::Query(Code::Min),
        AskError::Twice { name } => Unrouted::Query(Code::Twice { name }),
        AskError::Date { at } => Unrouted::Query(Code::Date { at }),
        AskError::Bytes => Unrouted::Query(Code::Bytes),
        AskError::Memory => Unrouted::Memory,
    }
}

/// A search on several manifests, or the first refusal of its query.
fn gathered(alloc: Global, query: &str) -> Result<Read, Unrouted>
    ensures { Gives (λ read. read) Unrouted.Memory result (gathered (gather_of query.now)) }
{
    match read_gather(alloc, query) {
        Ok(gather) => Ok(Read::GatherSearch { gather }),
        Err(error) => Err(gather_refused(error)),
    }
}

fn gather_refused(error: GatherError) -> Unrouted
    ensures { result ≡ gather_refused error }
{
    match error {
        GatherError::Manifests { at } => Unrouted::Query(Code::Manifests { at }),
        GatherError::Query(error) => query_refused(error),
    }
}

/// A completion on several manifests, or the first refusal of its query.
fn gather_completed(alloc: Global, query: &str) -> Result<Read, Unrouted>
    ensures { Gives (λ read. read) Unrouted.Memory result
        (gather_completed (gather_ask_of query.now)) }
{
    match read_gather_ask(alloc, query) {
        Ok(ask) => Ok(Read::GatherComplete { ask }),
        Err(error) => Err(gather_ask_refused(error)),
    }
}

fn gather_ask_refused(error: GatherAskError) -> Unrouted
    ensures { result ≡ gather_ask_refused error }
{
    match error {
        GatherAskError::Manifests { at } => Unrouted::Query(Code::Manifests { at }),
        GatherAskError::Ask(error) => ask_refused(error),
    }
}

// ---- writes

fn put_at(alloc: Global, path: Path, query: &str) -> Result<Route, Unrouted>
    ensures { Gives (λ route. route) Unrouted.Memory result (put_at path query.now) }
{
    match path {
        Path::Object(object) => match put_of(alloc, object, query) {
            Ok(write) => written(write),
            Err(_) => Err(Unrouted::Memory),
        },
        _ => Err(Unrouted::Method),
    }
}

fn delete_at(alloc: Global, path: Path, query: &str) -> Result<Route, Unrouted>
    ensures { Gives (λ route. route) Unrouted.Memory result (delete_at path query.now) }
{
    match path {
        Path::Object(object) => match deletion_of(alloc, object, query) {
            Ok(write) => written(write),
            Err(_) => Err(Unrouted::Memory),
        },
        _ => Err(Unrouted::Method),
    }
}

fn written(write: Result<WriteRoute, Code>) -> Result<Route, Unrouted>
    ensures { result ≡ written write }
{
    match write {
        Ok(write) => Ok(Route::Write(write)),
        Err(code) => Err(Unrouted::Query(code)),
    }
}

/// The put of an object, with what its query gives.
fn put_of(
    alloc: Global,
    object: Object,
    query: &str,
) -> Result<Result<WriteRoute, Code>, AllocError>
    ensures { IfOk result (λ write. write ≡ put_of object query.now) }
{
    match given_in(alloc, put_reads(&object), query)? {
        Ok(given) => match version_of(given.as_slice()) {
            Some(version) => put_with(alloc, object, given.as_slice(), version),
            None => Ok(Err(Code::VersionForm)),
        },
        Err(refusal) => Ok(Err(refusal)),
    }
}

fn put_with(
    alloc: Global,
    object: Object,
    given: &[Pair],
    version: u32,
) -> Result<Result<WriteRoute, Code>, AllocError>
    ensures { IfOk result (λ write. write ≡ put_with object given.now version) }
{
    match object {
        Object::Reader(name) => Ok(Ok(WriteRoute::PutReader { name, version })),
        Object::Manifest(name) => manifest_put(alloc, name, given, version),
        Object::Note { owner, name } => note_put(alloc, owner, name, given, version),
    }
}

fn manifest_put(
    alloc: Global,
    name: Name,
    given: &[Pair],
    version: u32,
) -> Result<Result<WriteRoute, Code>, AllocError>
    ensures { IfOk result (λ write. write ≡ manifest_put name given.now version) }
{
    match group_of(alloc, given)? {
        Some(group) => Ok(Ok(WriteRoute::PutManifest {
            name,
            version,
            group,
        })),
        None => Ok(Err(Code::Group)),
    }
}

fn note_put(
    alloc: Global,
    owner: Name,
    name: Name,
    given: &[Pair],
    version: u32,
) -> Result<Result<WriteRoute, Code>, AllocError>
    ensures { IfOk result (λ write. write ≡ note_put owner name given.now version) }
{
    match manifest_of(alloc, given)? {
        Some(manifest) => match inner_of(alloc, given)? {
            Some(group) => Ok(Ok(WriteRoute::PutNote {
                owner,
                name,
                version,
                manifest,
                group,
            })),
            None => Ok(Err(Code::Group)),
        },
        None => Ok(Err(Code::Manifest)),
    }
}

/// The deletion of an object, which reads its number alone.
fn deletion_of(
    alloc: Global,
    object: Object,
    query: &str,
) -> Result<Result<WriteRoute, Code>, AllocError>
    ensures { IfOk result (λ write. write ≡ deletion_of object query.now) }
{
    match given_in(alloc, &NUMBER_READS, query)? {
        Ok(given) => match version_of(given.as_slice()) {
            Some(version) => Ok(Ok(deletion(object, version))),
            None => Ok(Err(Code::VersionForm)),
        },
        Err(refusal) => Ok(Err(refusal)),
    }
}

fn deletion(object: Object, version: u32) -> WriteRoute
    ensures { result ≡ deletion object version }
{
    match object {
        Object::Reader(name) => WriteRoute::DropReader { name, version },
        Object::Manifest(name) => WriteRoute::DropManifest { name, version },
        Object::Note { owner, name } => WriteRoute::DropNote {
            owner,
            name,
            version,
        },
    }
}
