ghost use Rattle.std.specs.Prelude.{◌≡◌};
ghost use Rattle.space_check.specs.Clauses.{number_of};

use disk_spots::Spot;

/// The clauses of a sound disk, in their order.
#[derive(Clone, Copy, Debug, PartialEq, Eq)]
pub enum Clause {
    /// The logs are whole records.
    WholeLogs,
    /// The records of transactions fit each other.
    Transactions,
    /// The pages are versions.
    Versions,
    /// The tables are whole, and the rows before agree.
    Tables,
    /// Transactions change a row in turn.
    Turns,
    /// Numbers are left.
    Numbers,
    /// What stands before checkpoints is in the pages.
    Checkpoints,
}

impl Clause {
    /// From 1 on.
    pub fn number(self) -> u8
        ensures { result ≡ number_of self }
    {
        match self {
            Clause::WholeLogs => 1,
            Clause::Transactions => 2,
            Clause::Versions => 3,
            Clause::Tables => 4,
            Clause::Turns => 5,
            Clause::Numbers => 6,
            Clause::Checkpoints => 7,
        }
    }
}

/// The first clause that doesn't hold, and its first spot.
#[derive(Clone, Copy, Debug, PartialEq, Eq)]
pub struct Breach {
    pub clause: Clause,
    pub at: Spot,
}

/// What is told of a disk.
#[derive(Clone, Copy, Debug, PartialEq, Eq)]
pub enum Verdict {
    /// It is sound; so many pages aren't all zeros, and the logs stand for so many rows.
    Sound { pages: u64, rows: u64 },
    Unsound { breach: Breach },
}
