//! Whether a report is sound.

ghost use Rattle.std.specs.Prelude.{◌≡◌, IfOk, Decides};
ghost use Rattle.std.specs.Option.{SomeIff};
ghost use Rattle.ds_model.specs.Rows.{AreSorted, map_of, listed};
ghost use Rattle.ds_model.specs.History as model;
ghost use Rattle.ds_model.specs.Logs.{rows_of_logs};
ghost use Rattle.report_check.specs.Records.{records_of};
ghost use Rattle.report_check.specs.Reports.{IsSoundReport, IsSoundAlone, EndsInRows};

use crate::abort::aborts_fit;
use crate::logged::are_logged;
use crate::once::each_once;
use crate::order::is_in_order;
use crate::rows::rows_of;
use ds_base::{NoMemory, RowList};
use ds_model::{Entry, Script};
use log_record::Log;
use std::alloc::Global;
use tran_history::{replay_entries, same_rows};

// Whether one thread reads what is printed, and comes to the rows that the logs stand for.
fn ends_in_rows(
    alloc: Global,
    opening: &RowList,
    entries: &[Entry],
    logs: &[Log],
) -> Result<bool, NoMemory>
    requires { AreSorted opening.now }
    ensures { IfOk result (λ same. Decides same (EndsInRows (map_of opening.now) entries.now (records_of logs.now))) }
{
    match replay_entries(alloc, opening, entries)? {
        None => Ok(false),
        Some(rows) => Ok(same_rows(rows.as_slice(), rows_of(alloc, logs)?.as_slice())),
    }
}

/// Whether the entries of a report, in the order in which they are printed, are sound for a script, the rows that the logs stood
/// for at the opening, and the logs as they are read back afterwards, of the members 1, 2, .. in their order. `had` is how many
/// records each log had at the opening.
///
/// Takes n steps times the logarithm of n, over n operations and records.
pub fn is_sound(
    alloc: Global,
    script: &Script,
    opening: &RowList,
    entries: &[Entry],
    logs: &[Log],
    had: &[usize],
) -> Result<bool, NoMemory>
    requires { AreSorted opening.now }
    ensures { IfOk result (λ sound. Decides sound (IsSoundReport script.now (map_of opening.now) entries.now (records_of logs.now) had.now)) }
{
    Ok(
        is_in_order(entries)
            && aborts_fit(entries)
            && each_once(alloc, script, entries)?
            && are_logged(alloc, opening, entries, logs, had)?
            && ends_in_rows(alloc, opening, entries, logs)?,
    )
}

/// The rows that one thread comes to, if the entries are sound as far as that can be told without the logs.
pub fn sound_rows(
    alloc: Global,
    script: &Script,
    opening: &RowList,
    entries: &[Entry],
) -> Result<Option<RowList>, NoMemory>
    requires { AreSorted opening.now }
    ensures { IfOk result (λ rows. SomeIff rows (IsSoundAlone script.now (map_of opening.now) entries.now) (listed (model.replay (map_of opening.now) entries.now))) }
{
    if !is_in_order(entries) || !aborts_fit(entries) {
        return Ok(None);
    }
    if !each_once(alloc, script, entries)? {
        return Ok(None);
    }
    replay_entries(alloc, opening, entries)
}
