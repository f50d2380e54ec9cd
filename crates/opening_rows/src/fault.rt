ghost use Rattle.std.specs.Prelude.{◌≡◌};
ghost use Rattle.opening_rows.specs.Reading.{fault_in};
ghost use Rattle.opening_rows.specs.declared.fault.LogsFault.TheVariants as fault;

use disk_heads::LogFault;
use ds_base::{MemberId, NoMemory};
use std::alloc::AllocError;
use thiserror::Error;

/// Why the logs of a disk were not read.
#[derive(Clone, Copy, Debug, PartialEq, Eq, Error)]
pub enum LogsFault {
    /// The disk has counted a fault.
    #[error("the disk failed")]
    Failed,
    /// The field that begins at this byte of the member's log isn't allowed.
    #[error("a log is damaged at byte {at}")]
    Damaged { member: MemberId, at: u64 },
    #[error("out of memory")]
    NoMemory,
}

impl From<NoMemory> for LogsFault {
    ghost from_gives = { λ _ f. f ≡ fault.NoMemory };

    fn from(_: NoMemory) -> Self {
        LogsFault::NoMemory
    }
}

impl From<AllocError> for LogsFault {
    ghost from_gives = { λ _ f. f ≡ fault.NoMemory };

    fn from(_: AllocError) -> Self {
        LogsFault::NoMemory
    }
}

/// The fault of the member's log as one of the logs.
pub fn fault_in(member: MemberId, fault: LogFault) -> LogsFault
    ensures { result ≡ fault_in member fault }
{
    match fault {
        LogFault::Failed => LogsFault::Failed,
        LogFault::Damaged { at } => LogsFault::Damaged { member, at },
        LogFault::NoMemory => LogsFault::NoMemory,
    }
}
