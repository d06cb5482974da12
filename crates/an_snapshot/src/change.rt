use an_base::Shared;
use an_state::Activity;

/// The classes of a change's two audiences: of who could read its object before, and of who can
/// after. Of none there is no class. They are kept in 32 bits each.
#[derive(Clone, Copy, Debug, PartialEq, Eq)]
pub(crate) struct ClassChange {
    pub before: Option<u32>,
    pub after: Option<u32>,
}

/// A change, and the number of the pair of its audiences' classes.
#[derive(Drop)]
pub(crate) struct FiledChange {
    pub activity: Shared<Activity>,
    pub pair: u32,
}
