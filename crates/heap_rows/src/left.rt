ghost use Rattle.std.specs.Prelude.{◌≡◌, ◌↔◌, [], ◌∷◌, ◌++◌, true, List, OnOk, IsTrue};
ghost use Rattle.std.specs.FinMap as finite;
ghost use Rattle.ds_model.specs.declared.log.LogRecord.{LogRecord};
ghost use Rattle.redone_pages.specs.Ranges.{has_table};
ghost use Rattle.sound_disk.specs.Rows_there.{row_after};
ghost use Rattle.heap_rows.specs.Left.{same_row, set_in, left_with, AreLeft};

use crate::rows::put;
use ds_base::{NoMemory, Value};
use log_record::{Body, LogRecord, RowChange};
use redone_pages::TableRange;
use spot_map::SpotMap;
use std::alloc::Global;

/// The rows of the tables of a range as the records that were taken so far leave them.
#[derive(Debug, Drop)]
pub struct LeftRows {
    pub range: TableRange,
    pub rows: SpotMap<Value>,
}

fn same_row(a: Option<Value>, b: Option<Value>) -> bool
    ensures { result ≡ same_row a b }
{
    match (a, b) {
        (None, None) => true,
        (Some(a), Some(b)) => a.bytes() == b.bytes(),
        _ => false,
    }
}

fn tells(rows: &SpotMap<Value>, change: &RowChange) -> bool
    ensures { result ≡ same_row (finite.get rows.now (change.now.table, change.now.key)) change.now.before }
{
    same_row(rows.get(change.table, change.key), change.before)
}

fn put_in(range: TableRange, rows: &mut SpotMap<Value>, change: &RowChange) -> Result<(), NoMemory>
    ensures { OnOk result (rows.new ≡ set_in (has_table range) rows.old change.now.table change.now.key change.now.after) }
{
    if range.has_table(change.table) {
        put(rows, change)
    } else {
        Ok(())
    }
}

fn apply_in(range: TableRange, rows: &mut SpotMap<Value>, body: &Body) -> Result<(), NoMemory>
    ensures { OnOk result (rows.new ≡ left_with (has_table range) rows.old body.now) }
{
    match body {
        Body::RowChange { change } | Body::Compensation { change, .. } => {
            put_in(range, rows, change)
        }
        Body::System { .. }
        | Body::Commit
        | Body::Ended
        | Body::Checkpoint { .. }
        | Body::RestartEnd => Ok(()),
    }
}

impl LeftRows {
    /// Before the first record.
    pub fn new(alloc: Global, range: TableRange) -> LeftRows
        ensures range { result.range ≡ range }
        ensures left { AreLeft [] result }
    {
        LeftRows {
            range,
            rows: SpotMap::new(alloc),
        }
    }

    /// Takes the next record, of which only the change of a row of a table of the range counts.
    ///
    /// It takes time in the logarithm of the number of rows.
    pub fn take(&mut self, it: &LogRecord) -> Result<(), NoMemory>
        ensures range { self.new.range ≡ self.old.range }
        ensures left { OnOk result ((records : List LogRecord) → AreLeft records self.old → AreLeft (records ++ it.now ∷ []) self.new) }
    {
        apply_in(self.range, &mut self.rows, &it.body)
    }

    /// Whether the row before the change, of a table of the range, is the one that the records left.
    pub fn tells(&self, change: &RowChange) -> bool
        requires { has_table self.now.range change.now.table ≡ true }
        ensures { (records : List LogRecord) → AreLeft records self.now → IsTrue result ↔ (row_after records change.now.table change.now.key ≡ change.now.before) }
    {
        tells(&self.rows, change)
    }
}
