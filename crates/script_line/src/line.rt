ghost use Rattle.std.specs.Prelude.{◌≡◌};
ghost use Rattle.script_line.specs.declared.line.LineError.TheVariants as errors;

use ds_base::{Bytes, MemberId, NoMemory};
use ds_model::{FailAt, FaultKind, Op};

/// What the first word of a line says that it is.
#[derive(Clone, Copy, Debug, PartialEq, Eq)]
pub enum Keyword {
    GroupFail,
    Phase,
    Member,
    Restart,
    Fail,
    Tran,
    /// One of the words of operations: `get`, `getu`, `put`, `del`, `scan`, `raise`, `await`, `losecache`, `abort`.
    Operation,
    End,
}

/// A line of a script.
#[derive(Debug, Drop)]
pub enum Line {
    GroupFail,
    Phase,
    Member(MemberId),
    Restart,
    Fail(FailAt),
    Tran { name: Bytes, wait: bool },
    Operation(Op),
    End,
}

/// Why a line was not read.
#[derive(Clone, Copy, Debug, PartialEq, Eq)]
pub enum LineError {
    Fault(FaultKind),
    NoMemory,
}

impl From<NoMemory> for LineError {
    ghost from_gives = { λ _ e. e ≡ errors.NoMemory };

    fn from(_: NoMemory) -> Self {
        LineError::NoMemory
    }
}

impl From<FaultKind> for LineError {
    ghost from_gives = { λ kind e. e ≡ errors.Fault kind };

    fn from(kind: FaultKind) -> Self {
        LineError::Fault(kind)
    }
}
