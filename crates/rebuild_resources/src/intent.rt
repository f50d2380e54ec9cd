ghost use Rattle.std.specs.Prelude.{◌≡◌};
ghost use Rattle.rebuild_resources.specs.declared.intent.RebuildFault.TheVariants as faults;

use ds_base::{MemberId, NoMemory, PageId};
use facility::Command;

/// What a rebuild of the cache wants of an event.
#[derive(Clone, Copy, Debug)]
pub enum RebuildIntent {
    /// Nothing is sent: a wait has ended.
    Step,
    /// Claims the rebuild. Nothing is read yet under this claim.
    Claim,
    /// Reads on in the logs of the members 1 to 32: the length of each first, then its bytes by blocks.
    ReadLog,
    /// Reads the next page that the logs name, and brings it forward.
    ReadPage,
    /// Writes the page in hand, which records have changed.
    WritePage,
    /// The cache is rebuilt.
    Rebuilt,
    /// Gives the claim up.
    Unclaim,
}

/// What goes out in an event.
#[derive(Clone, Copy, Debug, PartialEq, Eq)]
pub enum RebuildSent {
    None,
    Command(Command),
    LogLength(MemberId),
    /// So many bytes of the log at most, from this one on.
    ReadLog {
        member: MemberId,
        at: u64,
        count: u32,
    },
    ReadPage(PageId),
    WritePage(PageId),
}

/// The test that an intent of a rebuild has failed.
#[derive(Clone, Copy, Debug, PartialEq, Eq)]
pub enum RebuildTest {
    /// The member has no claim under which the cache isn't rebuilt.
    NotClaimed,
    /// A log isn't read whole.
    NotRead,
    /// All logs are read.
    AlreadyRead,
    /// A page that the logs name isn't brought forward.
    NotBrought,
    /// All pages that the logs name are brought forward.
    AlreadyBrought,
    /// The page in hand was changed by records, and isn't written.
    NotWritten,
    /// No page in hand was changed by records.
    NotChanged,
}

/// Why an event wasn't done: the intent was against a test, the facility's condition didn't hold, or memory was wanting.
#[derive(Clone, Copy, Debug, PartialEq, Eq)]
pub enum RebuildFault {
    Unlawful(RebuildTest),
    NotExecutable,
    NoMemory,
}

impl From<NoMemory> for RebuildFault {
    ghost from_gives = { λ _ e. e ≡ faults.NoMemory };

    fn from(_: NoMemory) -> Self {
        RebuildFault::NoMemory
    }
}
