ghost use Rattle.std.specs.Prelude.{◌≡◌};
ghost use Rattle.log_record.specs.declared.fault.RecordFault.TheVariants as fault;

use ds_base::NoMemory;
use thiserror::Error;

/// Why no log record was read.
#[derive(Clone, Copy, Debug, PartialEq, Eq, Error)]
pub enum RecordFault {
    /// The bytes end before the record does.
    #[error("the log record is not whole")]
    NotWhole,
    /// The field that begins at this offset isn't allowed.
    #[error("the field at byte {at} of the log record is not allowed")]
    Bad { at: usize },
    #[error("out of memory")]
    NoMemory,
}

impl From<NoMemory> for RecordFault {
    ghost from_gives = { λ _ e. e ≡ fault.NoMemory };

    fn from(_: NoMemory) -> Self {
        RecordFault::NoMemory
    }
}
