use an_keep::Keeper;
use an_lines::Status;

/// How a run ended, and its keeper as it was left.
#[derive(Drop)]
pub struct Ran<K: Keeper> {
    pub status: Status,
    pub keeper: K,
}
