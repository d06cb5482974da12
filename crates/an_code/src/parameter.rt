ghost use Rattle.std.specs.Prelude.{◌≡◌};
ghost use Rattle.an_code.specs.Code.{parameter_text};

/// A parameter of a query that a route reads.
#[derive(Clone, Copy, Debug, PartialEq, Eq)]
pub enum Parameter {
    /// The number of a write on its object.
    Version,
    /// The manifest on which an annotation is put.
    Manifest,
    /// The group that a manifest or an annotation is put for.
    Group,
    /// What the texts or the bodies of annotations have to have, or the prefix of terms (IIIF
    /// Content Search API 2.0).
    Q,
    /// Why annotations were written.
    Motivation,
    /// When annotations were made.
    Date,
    /// Who made annotations.
    User,
    /// The number of a page.
    Page,
    /// How often a term has to occur.
    Min,
    /// Whether annotations are given by their IRIs alone.
    Iris,
    /// A region of a canvas.
    Xywh,
    /// The manifests whose annotations are searched.
    Manifests,
}

impl Parameter {
    /// Its name, as a query gives it.
    pub fn text(self) -> &'static str
        ensures text { result.now ≡ parameter_text self }
    {
        match self {
            Parameter::Version => "version",
            Parameter::Manifest => "manifest",
            Parameter::Group => "group",
            Parameter::Q => "q",
            Parameter::Motivation => "motivation",
            Parameter::Date => "date",
            Parameter::User => "user",
            Parameter::Page => "page",
            Parameter::Min => "min",
            Parameter::Iris => "iris",
            Parameter::Xywh => "xywh",
            Parameter::Manifests => "manifests",
        }
    }
}
