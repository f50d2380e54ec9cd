//! A report, read from its text.

ghost use Rattle.std.specs.Prelude.{◌≡◌};
ghost use Rattle.report_text.specs.declared.error.ReportError.TheVariants as errors;

use ds_base::NoMemory;

/// Why a report was not read.
#[derive(Clone, Copy, Debug, PartialEq, Eq)]
pub enum ReportError {
    /// The first line that may not stand where it does, from 1. Where the text ends too early it is the line behind
    /// the last; all lines past 2^32 - 1 are told by that number.
    Bad { line: u32 },
    NoMemory,
}

impl From<NoMemory> for ReportError {
    ghost from_gives = { λ _ e. e ≡ errors.NoMemory };

    fn from(_: NoMemory) -> Self {
        ReportError::NoMemory
    }
}
