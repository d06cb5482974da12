ghost use Rattle.std.specs.Prelude.{◌≡◌};
ghost use Rattle.an_routes.specs.Routes.{read_kind, read_methods, write_kind, write_methods};

use crate::paths::Kind;
use an_base::Name;
use an_code::Code;
use an_complete::Ask;
use an_gather::{Gather, GatherAsk};
use an_http::Allow;
use an_policy::{Group, Inner};
use an_query::Query;
use an_selectors::Xywh;

/// What is read.
#[derive(Debug, Drop)]
pub enum Read {
    Manifest {
        name: Name,
    },
    /// An annotation.
    Note {
        owner: Name,
        name: Name,
    },
    /// The annotations on a manifest that a query asks for (IIIF Content Search API 2.0).
    Search {
        manifest: Name,
        query: Query,
    },
    /// The terms of the annotations on a manifest that begin with a prefix.
    Complete {
        manifest: Name,
        ask: Ask,
    },
    /// A page of the annotations on a canvas, or on a region of it.
    Canvas {
        manifest: Name,
        canvas: u32,
        region: Option<Xywh>,
        page: u32,
    },
    /// The annotations on a manifest as a container (Web Annotation Protocol, section 4).
    Container {
        manifest: Name,
        iris: bool,
    },
    ContainerPage {
        manifest: Name,
        page: u32,
        iris: bool,
    },
    /// The stream of changes (IIIF Change Discovery API 1.0).
    Changes,
    ChangesPage {
        page: u32,
    },
    /// A page of the comments on an annotation, each with where it holds in its texts.
    Anchors {
        owner: Name,
        name: Name,
        page: u32,
    },
    /// A page of the comments on a manifest that have lost what they are about.
    Orphans {
        manifest: Name,
        page: u32,
    },
    /// The manifests that the caller may read (IIIF Presentation API 3.0, section 5.1).
    Collection,
    /// The annotations on several manifests that a query asks for.
    GatherSearch {
        gather: Gather,
    },
    /// The terms of the annotations on several manifests that begin with a prefix.
    GatherComplete {
        ask: GatherAsk,
    },
}

/// What is written: a command without its tree.
#[derive(Debug, Drop)]
pub enum WriteRoute {
    PutReader {
        name: Name,
        version: u32,
    },
    DropReader {
        name: Name,
        version: u32,
    },
    PutManifest {
        name: Name,
        version: u32,
        group: Group,
    },
    DropManifest {
        name: Name,
        version: u32,
    },
    PutNote {
        owner: Name,
        name: Name,
        version: u32,
        manifest: Name,
        group: Inner,
    },
    DropNote {
        owner: Name,
        name: Name,
        version: u32,
    },
}

/// What a request asks for.
#[derive(Debug, Drop)]
pub enum Route {
    /// The methods of the path.
    Options(Allow),
    Read(Read),
    Write(WriteRoute),
}

/// Why a request has no route. `allow` has the methods of the path.
#[derive(Clone, Copy, Debug, PartialEq, Eq)]
pub enum RouteError {
    /// The target doesn't begin with `/`.
    Target,
    /// The server has no such path.
    Route,
    /// The path hasn't this method.
    Method { allow: Allow },
    /// The query is refused.
    Query { allow: Allow, code: Code },
    Memory,
}

/// Why a path gives no route to a method.
#[derive(Clone, Copy, Debug, PartialEq, Eq)]
pub(crate) enum Unrouted {
    /// It hasn't this method.
    Method,
    /// The query is refused.
    Query(Code),
    Memory,
}

impl Read {
    /// The methods of its path.
    pub fn methods(&self) -> Allow
        ensures methods { result ≡ read_methods self.now }
    {
        self.kind().methods()
    }

    fn kind(&self) -> Kind
        ensures { result ≡ read_kind self.now }
    {
        match self {
            Read::Manifest { .. } => Kind::Manifest,
            Read::Note { .. } => Kind::Note,
            Read::Search { .. } => Kind::Search,
            Read::Complete { .. } => Kind::Complete,
            Read::Canvas { .. } => Kind::Canvas,
            Read::Container { .. } => Kind::Container,
            Read::ContainerPage { .. } => Kind::Container,
            Read::Changes => Kind::Changes,
            Read::ChangesPage { .. } => Kind::Changes,
            Read::Anchors { .. } => Kind::Anchors,
            Read::Orphans { .. } => Kind::Orphans,
            Read::Collection => Kind::Collection,
            Read::GatherSearch { .. } => Kind::GatherSearch,
            Read::GatherComplete { .. } => Kind::GatherComplete,
        }
    }
}

impl WriteRoute {
    /// The methods of its path.
    pub fn methods(&self) -> Allow
        ensures methods { result ≡ write_methods self.now }
    {
        self.kind().methods()
    }

    fn kind(&self) -> Kind
        ensures { result ≡ write_kind self.now }
    {
        match self {
            WriteRoute::PutReader { .. } => Kind::Reader,
            WriteRoute::DropReader { .. } => Kind::Reader,
            WriteRoute::PutManifest { .. } => Kind::Manifest,
            WriteRoute::DropManifest { .. } => Kind::Manifest,
            WriteRoute::PutNote { .. } => Kind::Note,
            WriteRoute::DropNote { .. } => Kind::Note,
        }
    }
}
