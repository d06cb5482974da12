ghost use Rattle.std.specs.Prelude.{◌≡◌};
ghost use Rattle.an_lines.specs.StatusCode.{status_code};

/// How a run ends.
#[derive(Clone, Copy, Debug, PartialEq, Eq)]
pub enum Status {
    /// The work is done: the whole input was played, or the connection came to its end.
    Done,
    /// A write failed.
    WriteFault,
    /// The words are those of no form.
    Misunderstood,
    /// A line was refused, or the input is too large.
    Refused,
    /// The keeper of the store failed.
    KeeperFailed,
    /// A read failed.
    ReadFault,
    /// The door at which links come in failed.
    DoorFailed,
    /// Memory ran out, and nothing was printed.
    Memory,
    /// The cells of the store stand for no state. This one is the first that is damaged.
    Damaged { tab: u8, key: u64 },
    /// What was to be exported is for nobody: the name is no live reader's.
    NoReader,
}

impl Status {
    /// The number with which the program ends.
    pub fn code(self) -> u8
        ensures code { result ≡ status_code self }
    {
        match self {
            Status::Done => 0,
            Status::WriteFault => 1,
            Status::Misunderstood => 2,
            Status::Refused => 3,
            Status::KeeperFailed => 4,
            Status::ReadFault => 5,
            Status::DoorFailed => 5,
            Status::Memory => 6,
            Status::Damaged { .. } => 7,
            Status::NoReader => 8,
        }
    }
}
