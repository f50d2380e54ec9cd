ghost use Rattle.std.specs.Prelude.{◌≡◌};
ghost use Rattle.clap.specs.Words.{kind_of};
ghost use Rattle.group_words.specs.Faults.{fault_by};
ghost use Rattle.group_words.specs.declared.order.WordsFault.TheVariants as faults;

use clap::error::ErrorKind;
use ds_base::{Sizes, TableId};
use std::alloc::{AllocError, AllocFailed};
use thiserror::Error;

/// What the command line orders.
#[derive(Clone, Copy, Debug, PartialEq, Eq)]
pub enum Order {
    /// A script from the input is played by a group of these sizes. A seed settles the order of its threads.
    Play {
        sizes: Sizes,
        seed: Option<u64>,
        trace: bool,
    },
    Show,
    Make {
        n: u64,
    },
    Work {
        n: u64,
        sizes: Sizes,
    },
    /// Whether the disk is sound is told.
    Check,
    /// An image of the table is written to the output.
    Copy {
        table: TableId,
    },
    /// The table is made anew from an image at the input and the logs.
    Recover {
        table: TableId,
    },
}

/// Why the words gave no order.
#[derive(Clone, Copy, Debug, PartialEq, Eq, Error)]
pub enum WordsFault {
    /// The words are no order.
    #[error("the words are no order")]
    Refused,
    #[error("out of memory")]
    NoMemory,
}

impl From<AllocError> for WordsFault {
    ghost from_gives = { λ _ e. e ≡ faults.NoMemory };

    fn from(_: AllocError) -> Self {
        WordsFault::NoMemory
    }
}

impl<T: Drop> From<AllocFailed<T>> for WordsFault {
    ghost from_gives = { λ _ e. e ≡ faults.NoMemory };

    fn from(_: AllocFailed<T>) -> Self {
        WordsFault::NoMemory
    }
}

impl From<clap::Error> for WordsFault {
    ghost from_gives = { λ error fault. fault ≡ fault_by (kind_of error) };

    fn from(error: clap::Error) -> Self {
        match error.kind() {
            ErrorKind::OutOfMemory => WordsFault::NoMemory,
            _ => WordsFault::Refused,
        }
    }
}
