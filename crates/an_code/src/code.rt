ghost use Rattle.std.specs.Prelude.{◌≡◌};
ghost use Rattle.an_code.specs.Code.{code_text};

use crate::parameter::Parameter;

/// Why a request or a line was refused, for whoever sent it. `at` is the place of what is
/// malformed, from 0; `current` is the number that the object has, 0 where it never was.
#[derive(Clone, Copy, Debug, PartialEq, Eq)]
pub enum Code {
    /// The line isn't UTF-8, or hasn't the words of a line.
    Line,
    /// The input is larger than an input may be.
    Input,
    /// The target doesn't begin with `/`.
    Target,
    /// The server has no such path.
    Route,
    /// The path hasn't this method.
    Method,
    /// A name or a value of the query isn't UTF-8.
    Bytes,
    /// A parameter comes twice; of several it is the one whose second coming stands first.
    Twice { name: Parameter },
    /// The number of a write is missing, or isn't decimal from 1 to 999,999,999.
    VersionForm,
    /// The manifest of an annotation is missing or no name.
    Manifest,
    /// This piece of the manifests that are searched, from 0, is no name.
    Manifests { at: usize },
    /// This piece of a date, from 0, isn't two moments joined by `/`.
    Date { at: usize },
    /// The page isn't decimal from 1 to 999,999,999.
    Page,
    /// The page is past the last one.
    NoPage { pages: usize },
    /// The least number of occurrences isn't decimal from 1 to 999,999,999.
    Min,
    /// What asks for IRIs isn't `1`.
    Iris,
    /// The region isn't four whole numbers, joined by `,`.
    Xywh,
    /// The prefix of the terms that are asked for is missing or empty.
    Prefix,
    /// There is no such thing that the caller may read.
    Absent,
    /// A group is malformed, or one that a manifest can't have.
    Group,
    /// A reader's token isn't 8 to 64 letters, digits, `-` and `_`.
    ReaderToken,
    /// A reader's role is none of `reader`, `writer` and `curator`.
    ReaderRole,
    /// A reader's user is no IRI of 1 to 200 bytes.
    ReaderUser,
    /// A reader's groups aren't at most 64 distinct names.
    ReaderGroups,
    /// The text is no JSON (RFC 8259).
    Json,
    /// A number in the tree isn't whole, or is beyond 64 bits.
    NotWhole,
    /// More than 100 arrays and objects stand inside each other.
    Deep,
    /// The tree isn't of type `Annotation`.
    NoteType,
    /// This target is missing or malformed.
    NoteTarget { at: usize },
    /// This body is malformed.
    NoteBody { at: usize },
    /// This motivation is no text without white space.
    NoteMotivation { at: usize },
    /// A selector of this target is malformed.
    NoteSelector { at: usize },
    /// The manifest is one of IIIF Presentation 2.
    ManifestVersion2,
    /// The tree isn't of type `Manifest`.
    ManifestType,
    /// The manifest's label is no language map.
    ManifestLabel,
    /// The manifest has no canvases.
    ManifestItems,
    /// This item is no canvas with an IRI and a size.
    ManifestCanvas { at: usize },
    /// Nobody signed, or no live reader has the token or name.
    NotSigned,
    /// The caller may not write such an object.
    NotWriter,
    /// The annotation isn't the caller's.
    NotOwn,
    /// The caller is no member of the group.
    NotMember,
    /// The manifest has another group.
    GroupFixed,
    /// Another live reader has the token.
    TokenTaken,
    /// The write is neither the next of its object nor done already; the object's number is
    /// `current`.
    Version { current: u32 },
    /// The annotation was there for the caller, and isn't any more.
    Gone,
    /// The request's head is too long, has too many fields, or is out of the grammar (RFC 9112).
    Head,
    /// The request has a Transfer-Encoding field: a coded body isn't read.
    Transfer,
    /// The request has several Content-Length fields, or one that isn't 1 to 10 digits.
    Length,
    /// The request's body is larger than a body may be.
    Large,
    /// A PUT has no Content-Length field.
    LengthRequired,
    /// The input ends inside the request's body.
    Body,
    /// The write was accepted, and the keeper of the store failed to keep it.
    Keeper,
}

impl Code {
    /// The code as it is printed.
    pub fn text(self) -> &'static str
        ensures text { result.now ≡ code_text self }
    {
        match self {
            Code::Line => "line",
            Code::Input => "input",
            Code::Target => "target",
            Code::Route => "route",
            Code::Method => "method",
            Code::Bytes => "bytes",
            Code::Twice { .. } => "twice",
            Code::VersionForm => "version",
            Code::Manifest => "manifest",
            Code::Manifests { .. } => "manifests",
            Code::Date { .. } => "date",
            Code::Page => "page",
            Code::NoPage { .. } => "page",
            Code::Min => "min",
            Code::Iris => "iris",
            Code::Xywh => "xywh",
            Code::Prefix => "prefix",
            Code::Absent => "absent",
            Code::Group => "group",
            Code::ReaderToken => "reader_token",
            Code::ReaderRole => "reader_role",
            Code::ReaderUser => "reader_user",
            Code::ReaderGroups => "reader_groups",
            Code::Json => "json",
            Code::NotWhole => "not_whole",
            Code::Deep => "deep",
            Code::NoteType => "note_type",
            Code::NoteTarget { .. } => "note_target",
            Code::NoteBody { .. } => "note_body",
            Code::NoteMotivation { .. } => "note_motivation",
            Code::NoteSelector { .. } => "note_selector",
            Code::ManifestVersion2 => "manifest_version2",
            Code::ManifestType => "manifest_type",
            Code::ManifestLabel => "manifest_label",
            Code::ManifestItems => "manifest_items",
            Code::ManifestCanvas { .. } => "manifest_canvas",
            Code::NotSigned => "not_signed",
            Code::NotWriter => "not_writer",
            Code::NotOwn => "not_own",
            Code::NotMember => "not_member",
            Code::GroupFixed => "group_fixed",
            Code::TokenTaken => "token_taken",
            Code::Version { .. } => "version",
            Code::Gone => "gone",
            Code::Head => "head",
            Code::Transfer => "transfer",
            Code::Length => "length",
            Code::Large => "large",
            Code::LengthRequired => "length_required",
            Code::Body => "body",
            Code::Keeper => "keeper",
        }
    }
}
