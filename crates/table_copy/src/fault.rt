ghost use Rattle.std.specs.Prelude.{◌≡◌};
ghost use Rattle.table_copy.specs.Faults.{fault_of};
ghost use Rattle.table_copy.specs.declared.fault.CopyFault.TheVariants as fault;

use ds_base::{NoMemory, Volume};
use ds_disk::DiskError;
use thiserror::Error;

/// Why a table was not copied, or not recovered.
#[derive(Clone, Copy, Debug, PartialEq, Eq, Error)]
pub enum CopyFault {
    /// The source has counted a fault.
    #[error("the source failed")]
    Source,
    /// The sink has counted a fault.
    #[error("the sink failed")]
    Sink,
    /// The disk has counted a fault.
    #[error("the disk failed")]
    Disk,
    /// The field that begins at this byte of a page or a log can't stand there.
    #[error("a page or a log is damaged at byte {at}")]
    Damaged { volume: Volume, at: u64 },
    /// The field that begins at this byte of the image can't stand there, or the image ends there and should not, or should end
    /// there and does not.
    #[error("the image is refused at byte {at}")]
    Image { at: u64 },
    #[error("out of memory")]
    NoMemory,
}

impl From<NoMemory> for CopyFault {
    ghost from_gives = { λ _ f. f ≡ fault.NoMemory };

    fn from(_: NoMemory) -> Self {
        CopyFault::NoMemory
    }
}

impl From<DiskError> for CopyFault {
    ghost from_gives = { λ e f. f ≡ fault_of e };

    fn from(e: DiskError) -> Self {
        match e {
            DiskError::Failed => CopyFault::Disk,
            DiskError::NoMemory => CopyFault::NoMemory,
        }
    }
}
