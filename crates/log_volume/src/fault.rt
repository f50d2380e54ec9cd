ghost use Rattle.std.specs.Prelude.{◌≡◌};
ghost use Rattle.log_volume.specs.Faults.{fault_of};
ghost use Rattle.log_volume.specs.declared.fault.LogFault.TheVariants as fault;

use ds_base::NoMemory;
use ds_disk::DiskError;
use std::alloc::AllocError;
use thiserror::Error;

/// Why a log was not read or not changed.
#[derive(Clone, Copy, Debug, PartialEq, Eq, Error)]
pub enum LogFault {
    /// The disk has counted a fault.
    #[error("the disk failed")]
    Failed,
    /// The field that begins at this byte of the log isn't allowed.
    #[error("the log is damaged at byte {at}")]
    Damaged { at: u64 },
    #[error("out of memory")]
    NoMemory,
}

impl From<DiskError> for LogFault {
    ghost from_gives = { λ e f. f ≡ fault_of e };

    fn from(e: DiskError) -> Self {
        match e {
            DiskError::Failed => LogFault::Failed,
            DiskError::NoMemory => LogFault::NoMemory,
        }
    }
}

impl From<NoMemory> for LogFault {
    ghost from_gives = { λ _ f. f ≡ fault.NoMemory };

    fn from(_: NoMemory) -> Self {
        LogFault::NoMemory
    }
}

impl From<AllocError> for LogFault {
    ghost from_gives = { λ _ f. f ≡ fault.NoMemory };

    fn from(_: AllocError) -> Self {
        LogFault::NoMemory
    }
}
