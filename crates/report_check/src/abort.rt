//! Aborts: who asks for one doesn't commit, and nobody else is refused as aborted.

ghost use Rattle.std.specs.Prelude.{◌≡◌, Decides};
ghost use Rattle.std.specs.List.{AllByRecursion};
ghost use Rattle.report_check.specs.Reports.{RefusalFits, AbortFits};

use ds_model::{Entry, Fate, Op, Refusal};
use tran_history::has_abort;

fn refusal_fits(ops: &[Op], refusal: &Refusal) -> bool
    ensures { Decides result (RefusalFits ops.now refusal.now) }
{
    match refusal {
        Refusal::Aborted => has_abort(ops),
        _ => true,
    }
}

fn fits(entry: &Entry) -> bool
    ensures { Decides result (AbortFits entry.now) }
{
    let ops = entry.tran.ops.as_slice();
    match &entry.fate {
        Fate::Committed { .. } => !has_abort(ops),
        Fate::Refused(refusal) => refusal_fits(ops, refusal),
        Fate::Stopped => true,
    }
}

/// Whether no transaction that asks for its abort is committed, and no other is refused as aborted.
pub fn aborts_fit(entries: &[Entry]) -> bool
    ensures { Decides result (AllByRecursion AbortFits entries.now) }
{
    for entry in entries {
        if !fits(entry) {
            return false;
        }
    }
    true
}
