use an_base::Name;
use an_model::Target;

/// A target of an annotation, and its number among the annotation's targets, from 0.
#[derive(Drop)]
pub(crate) struct Comment {
    /// The names of the annotation's owner and of its own.
    pub owner: Name,
    pub name: Name,
    pub number: usize,
    pub target: Target,
}
