//! The logs of a disk as they are read back.

ghost use Rattle.std.specs.Prelude.{◌≡◌, ◌≤◌, ℕ, true, IfOk, IfSome};
ghost use Rattle.ds_base.specs.Causes.{Rose};
ghost use Rattle.ds_model.specs.Rows.{AreSorted};
ghost use Rattle.opening_rows.specs.Judging.{IsTold, IsJudged};
ghost use Rattle.checked_run.specs.Back.{ReadsBack, TellsDamage};

use ds_base::RowList;
use ds_disk::Disk;
use ds_model::{Entry, Script};
use opening_rows::{LogsFault, Opening, check_report};
use std::alloc::Global;

/// Holds entries against the logs, which are read back, and where no call has failed before, once more if one fails. Answers
/// also whether a call has failed.
pub fn check_back<D: Disk>(
    alloc: Global,
    disk: &mut D,
    script: &Script,
    opening: &Opening,
    entries: &[Entry],
    failed: bool,
) -> (Result<Option<RowList>, LogsFault>, bool)
    requires { AreSorted opening.now.rows }
    ensures alone { IfOk result.0 (λ rows. IfSome rows (IsTold script.now opening.now entries.now)) }
    ensures back { (before : ℕ) → before ≤ D.faults disk.old → (failed ≡ true → Rose before (D.faults disk.old)) → ReadsBack (D.contents disk.old) (D.contents disk.new) before (D.faults disk.new) result.1 (λ rows c. IsJudged script.now opening.now entries.now c rows) result.0 }
    ensures damaged { TellsDamage (D.contents disk.old) (D.contents disk.new) result.0 }
    ensures kept { failed ≡ true → result.1 ≡ true }
    ensures later { D.faults disk.old ≤ D.faults disk.new }
{
    let read = check_report(alloc, disk, script, opening, entries);
    match &read {
        Err(LogsFault::Failed) if !failed => {
            (check_report(alloc, disk, script, opening, entries), true)
        }
        _ => (read, failed),
    }
}
