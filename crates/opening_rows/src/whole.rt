//! Whether whole logs bear a report out.

ghost use Rattle.std.specs.Prelude.{◌≡◌, IfOk, IfSome, Decides};
ghost use Rattle.std.specs.List.{AllByRecursion};
ghost use Rattle.ds_model.specs.Rows.{AreSorted, map_of};
ghost use Rattle.report_check.specs.Records.{records_of};
ghost use Rattle.report_check.specs.Commits.{new_commits, AreLogged};
ghost use Rattle.opening_rows.specs.Reading.{HasDamage, ReadsBy};
ghost use Rattle.opening_rows.specs.Opening.{stood_for};
ghost use Rattle.opening_rows.specs.Kept.{AreWhole};
ghost use Rattle.opening_rows.specs.Judging.{IsTold, Judges, IsJudged};

use crate::fault::LogsFault;
use crate::fresh::read_trans;
use crate::logs::read_logs;
use crate::opening::Opening;
use disk_heads::BLOCK;
use ds_base::{NoMemory, RowList};
use ds_disk::Disk;
use ds_model::{Entry, Script};
use log_record::Log;
use report_check::{are_logged, rows_of, sound_rows};
use std::alloc::Global;
use tran_history::same_rows;

// Whether nothing follows the whole records of each log.
fn are_whole(logs: &[Log]) -> bool
    ensures { Decides result (AreWhole logs.now) }
{
    logs.iter().all(|log| log.tail == 0)
}

// Whether one thread comes to the rows that logs stand for, and these tell of the commits of entries.
fn bear_out(
    alloc: Global,
    opening: &Opening,
    entries: &[Entry],
    left: &RowList,
    logs: &[Log],
) -> Result<bool, NoMemory>
    requires { AreSorted opening.now.rows }
    ensures { IfOk result (λ same. Decides same ((left.now ≡ stood_for logs.now) × AreLogged (records_of logs.now) (new_commits opening.now.had.items (records_of logs.now)) (map_of opening.now.rows) entries.now)) }
{
    let rows = rows_of(alloc, logs)?;
    if !same_rows(left.as_slice(), rows.as_slice()) {
        return Ok(false);
    }
    are_logged(alloc, &opening.rows, entries, logs, &opening.had)
}

// Holds entries against logs.
fn judge_whole(
    alloc: Global,
    script: &Script,
    opening: &Opening,
    entries: &[Entry],
    logs: &[Log],
) -> Result<Option<RowList>, NoMemory>
    requires { AreSorted opening.now.rows }
    ensures alone { IfOk result (λ rows. IfSome rows (IsTold script.now opening.now entries.now)) }
    ensures judges { IfOk result (Judges script.now opening.now entries.now logs.now) }
{
    if !are_whole(logs) {
        return Ok(None);
    }
    match sound_rows(alloc, script, &opening.rows, entries)? {
        None => Ok(None),
        Some(left) => {
            if bear_out(alloc, opening, entries, &left, logs)? {
                Ok(Some(left))
            } else {
                Ok(None)
            }
        }
    }
}

/// Whether the logs of a disk, which are read once by blocks, bear a report out. None of them had a record at the opening: so what
/// is kept of their transactions tells of the rows too.
pub fn check_fresh<D: Disk>(
    alloc: Global,
    disk: &mut D,
    script: &Script,
    opening: &Opening,
    entries: &[Entry],
) -> Result<Option<RowList>, LogsFault>
    requires in_order { AreSorted opening.now.rows }
    requires none { AllByRecursion (λ n. n ≡ 0) opening.now.had.items }
    ensures alone { IfOk result (λ rows. IfSome rows (IsTold script.now opening.now entries.now)) }
    ensures judged { ReadsBy (D.contents disk.old) (D.contents disk.new) (D.faults disk.old) (D.faults disk.new) (λ rows c. IsJudged script.now opening.now entries.now c rows) HasDamage result }
{
    let mut block = vec![in alloc; 0u8; BLOCK]?;
    let logs = read_trans(alloc, disk, &mut block)?;
    let rows = judge_whole(alloc, script, opening, entries, &logs)?;
    Ok(rows)
}

/// The same of the logs of a disk, which are read whole.
pub fn check_whole<D: Disk>(
    alloc: Global,
    disk: &mut D,
    script: &Script,
    opening: &Opening,
    entries: &[Entry],
) -> Result<Option<RowList>, LogsFault>
    requires { AreSorted opening.now.rows }
    ensures alone { IfOk result (λ rows. IfSome rows (IsTold script.now opening.now entries.now)) }
    ensures judged { ReadsBy (D.contents disk.old) (D.contents disk.new) (D.faults disk.old) (D.faults disk.new) (λ rows c. IsJudged script.now opening.now entries.now c rows) HasDamage result }
{
    let logs = read_logs(alloc, disk)?;
    let rows = judge_whole(alloc, script, opening, entries, &logs)?;
    Ok(rows)
}
