//! Whether the logs of a disk bear a report out.

ghost use Rattle.std.specs.Prelude.{◌≡◌, List, IfOk, IfSome, Decides};
ghost use Rattle.ds_model.specs.Rows.{AreSorted, map_of};
ghost use Rattle.log_record.specs.declared.log.Log.{Log};
ghost use Rattle.report_check.specs.Records.{records_of};
ghost use Rattle.report_check.specs.Commits.{new_commits, AreLogged};
ghost use Rattle.opening_rows.specs.Reading.{HasDamage, BreaksAt, ReadsBy};
ghost use Rattle.opening_rows.specs.Opening.{stood_for};
ghost use Rattle.opening_rows.specs.Kept.{AreKept};
ghost use Rattle.opening_rows.specs.Judging.{IsTold, Judges, IsJudged};

use crate::fault::LogsFault;
use crate::fresh::had_none;
use crate::kept::{KeptLogs, keep_logs};
use crate::laws::kept_laws;
use crate::opening::{Opening, read_opening};
use crate::whole::{check_fresh, check_whole};
use disk_heads::BLOCK;
use ds_base::{NoMemory, RowList};
use ds_disk::Disk;
use ds_model::{Entry, Script};
use report_check::{are_logged, sound_rows};
use std::alloc::Global;
use tran_history::same_rows;

// Whether one thread comes to the rows that logs stand for, and what is kept of these tells of the commits of entries.
fn are_borne_out(
    alloc: Global,
    opening: &Opening,
    entries: &[Entry],
    left: &RowList,
    rows: &RowList,
    kept: &KeptLogs,
) -> Result<bool, NoMemory>
    requires { AreSorted opening.now.rows }
    ensures { (logs : List Log) → AreKept opening.now.had.items logs kept.now → IfOk result (λ same. Decides same ((left.now ≡ rows.now) × AreLogged (records_of logs) (new_commits opening.now.had.items (records_of logs)) (map_of opening.now.rows) entries.now)) }
{
    kept_laws();
    if !same_rows(left.as_slice(), rows.as_slice()) {
        return Ok(false);
    }
    are_logged(alloc, &opening.rows, entries, &kept.logs, &kept.had)
}

// Holds entries against the rows that logs stand for, and what is kept of these.
fn judge(
    alloc: Global,
    script: &Script,
    opening: &Opening,
    entries: &[Entry],
    rows: &RowList,
    kept: &KeptLogs,
) -> Result<Option<RowList>, NoMemory>
    requires { AreSorted opening.now.rows }
    ensures alone { IfOk result (λ rows. IfSome rows (IsTold script.now opening.now entries.now)) }
    ensures judges { (logs : List Log) → rows.now ≡ stood_for logs → AreKept opening.now.had.items logs kept.now → IfOk result (Judges script.now opening.now entries.now logs) }
{
    if !kept.are_whole {
        return Ok(None);
    }
    match sound_rows(alloc, script, &opening.rows, entries)? {
        None => Ok(None),
        Some(left) => {
            if are_borne_out(alloc, opening, entries, &left, rows, kept)? {
                Ok(Some(left))
            } else {
                Ok(None)
            }
        }
    }
}

// Holds entries against the logs, which are read by blocks. A number that is lower than the one before it in its log is damage here.
fn check_by_blocks<D: Disk>(
    alloc: Global,
    disk: &mut D,
    script: &Script,
    opening: &Opening,
    entries: &[Entry],
) -> Result<Option<RowList>, LogsFault>
    requires { AreSorted opening.now.rows }
    ensures alone { IfOk result (λ rows. IfSome rows (IsTold script.now opening.now entries.now)) }
    ensures judged { ReadsBy (D.contents disk.old) (D.contents disk.new) (D.faults disk.old) (D.faults disk.new) (λ rows c. IsJudged script.now opening.now entries.now c rows) BreaksAt result }
{
    let left = read_opening(alloc, disk)?;
    let mut block = vec![in alloc; 0u8; BLOCK]?;
    let kept = keep_logs(alloc, disk, &opening.had, &mut block)?;
    let rows = judge(alloc, script, opening, entries, &left.rows, &kept)?;
    Ok(rows)
}

/// Whether the logs of a disk, as they are read back, bear out the entries of a report, in the order in which they are printed:
/// nothing follows the whole records of a log, and the entries are sound for the script, the opening rows and the logs. Then it
/// answers the rows that the logs stand for.
///
/// The logs are read by blocks: no more of a log is in memory than a block, the longest record, and the records of the
/// transactions that have committed since the opening. Beside them are the rows, and the number of each transaction that has
/// changed one and hasn't committed, whether it was open or rolled back. Only logs that can't be read so, for damage or for a
/// number that is lower than the one before it in its log, are read whole.
///
/// Where no log had a record at the opening, each is read once: then the records of all its transactions are in memory, and no
/// others, and the rows are made of these.
pub fn check_report<D: Disk>(
    alloc: Global,
    disk: &mut D,
    script: &Script,
    opening: &Opening,
    entries: &[Entry],
) -> Result<Option<RowList>, LogsFault>
    requires { AreSorted opening.now.rows }
    ensures alone { IfOk result (λ rows. IfSome rows (IsTold script.now opening.now entries.now)) }
    ensures judged { ReadsBy (D.contents disk.old) (D.contents disk.new) (D.faults disk.old) (D.faults disk.new) (λ rows c. IsJudged script.now opening.now entries.now c rows) HasDamage result }
{
    if had_none(&opening.had) {
        return check_fresh(alloc, disk, script, opening, entries);
    }
    match check_by_blocks(alloc, disk, script, opening, entries) {
        Ok(rows) => Ok(rows),
        Err(LogsFault::Damaged { .. }) => check_whole(alloc, disk, script, opening, entries),
        Err(LogsFault::Failed) => Err(LogsFault::Failed),
        Err(LogsFault::NoMemory) => Err(LogsFault::NoMemory),
    }
}
