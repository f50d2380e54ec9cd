//! A report that is held against script, opening rows and logs before it is told.

ghost use Rattle.std.specs.Prelude.{◌≡◌, ℕ, List, map, None, Some, Ok, IfOk, IfSome, IsErr};
ghost use Rattle.ds_model.specs.Rows.{AreSorted, map_of};
ghost use Rattle.ds_model.specs.Told.{entry_of};
ghost use Rattle.opening_rows.specs.declared.fault.LogsFault.TheVariants as reading;
ghost use Rattle.ds_base.specs.declared.row.Row.{Row};
ghost use Rattle.report_check.specs.Reports.{IsSoundAlone};
ghost use Rattle.checked_run.specs.declared.ended.Ended.TheVariants as ended;
ghost use Rattle.opening_rows.specs.Judging.{IsTold};
ghost use Rattle.checked_run.specs.Told.{IsAlone};
ghost use Rattle.checked_run.specs.Settled.{Checks};

use crate::ended::Ended;
use ds_base::{NoMemory, RowList};
use ds_model::{Entry, Report, Script, Trace};
use opening_rows::{LogsFault, Opening};
use report_check::{sound_rows, soundness_laws};
use report_told::tell_entries;
use std::alloc::Global;

// The report of entries that were found sound, with these rows.
fn report_of(
    alloc: Global,
    script: &Script,
    entries: Vec<Entry>,
    rows: RowList,
    trace: Trace,
    status: u8,
) -> Result<Report, NoMemory>
    ensures { IfOk result (λ report. report ≡ record { entries = map (entry_of script.now) entries.items; trace = trace; rows = rows; status = status }) }
{
    Ok(Report {
        entries: tell_entries(alloc, script, entries)?,
        trace,
        rows,
        status,
    })
}

/// The report of entries that the logs bear out, which stand for these rows; or that they don't. Bytes behind the last whole record
/// of a log bear none out: records are appended whole, and a group restart cuts what a stop has cut short.
pub fn told_with(
    alloc: Global,
    script: &Script,
    opening: &Opening,
    entries: Vec<Entry>,
    rows: Option<RowList>,
    trace: Trace,
    status: u8,
) -> Result<Ended, NoMemory>
    requires { IfSome rows (IsTold script.now opening.now entries.items) }
    ensures { IfOk result (Checks (λ report. ((found : List Row) × (rows ≡ Some found)) × IsAlone script.now opening.now.rows entries.items trace status report) (rows ≡ None)) }
{
    soundness_laws();
    match rows {
        None => Ok(Ended::Unsound { event: 0 }),
        Some(rows) => {
            let report = report_of(alloc, script, entries, rows, trace, status)?;
            Ok(Ended::Told(report))
        }
    }
}

/// The report of entries that are sound as far as that can be told without the logs, or that they aren't.
pub fn told_alone(
    alloc: Global,
    script: &Script,
    opening: &RowList,
    entries: Vec<Entry>,
    trace: Trace,
    status: u8,
) -> Result<Ended, NoMemory>
    requires { AreSorted opening.now }
    ensures { IfOk result (Checks (IsAlone script.now opening.now entries.items trace status) (IsSoundAlone script.now (map_of opening.now) entries.items → ⊥)) }
{
    soundness_laws();
    match sound_rows(alloc, script, opening, &entries)? {
        None => Ok(Ended::Unsound { event: 0 }),
        Some(rows) => {
            let report = report_of(alloc, script, entries, rows, trace, status)?;
            Ok(Ended::Told(report))
        }
    }
}

/// The same of entries whose logs were not read for this reason. A damaged log makes none sound.
pub fn told_unread(
    alloc: Global,
    script: &Script,
    opening: &RowList,
    entries: Vec<Entry>,
    trace: Trace,
    why: LogsFault,
) -> Result<Ended, NoMemory>
    requires { AreSorted opening.now }
    ensures failed { why ≡ reading.Failed → IfOk result (Checks (IsAlone script.now opening.now entries.items trace 5) (IsSoundAlone script.now (map_of opening.now) entries.items → ⊥)) }
    ensures damaged { (member at : ℕ) → why ≡ reading.Damaged member at → result ≡ Ok (ended.Unsound 0) }
    ensures wanting { why ≡ reading.NoMemory → IsErr result }
{
    match why {
        LogsFault::Failed => told_alone(alloc, script, opening, entries, trace, 5),
        LogsFault::Damaged { .. } => Ok(Ended::Unsound { event: 0 }),
        LogsFault::NoMemory => Err(NoMemory),
    }
}
