//! A report without entries.

ghost use Rattle.std.specs.Prelude.{◌≡◌};
ghost use Rattle.checked_run.specs.Accounts.{no_trace};
ghost use Rattle.checked_run.specs.Told.{plain_report};

use ds_base::{RowList, Sequence};
use ds_model::{Report, Trace};
use std::alloc::Global;

pub fn no_trace(alloc: Global) -> Trace
    ensures { result ≡ no_trace }
{
    Trace {
        causes: Sequence::new(alloc),
        events: Sequence::new(alloc),
    }
}

/// A report of these rows alone.
pub fn plain_report(alloc: Global, rows: RowList, status: u8) -> Report
    ensures { result ≡ plain_report rows status }
{
    Report {
        entries: Sequence::new(alloc),
        trace: no_trace(alloc),
        rows,
        status,
    }
}
