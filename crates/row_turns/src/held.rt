ghost use Rattle.std.specs.Prelude.{◌≡◌, ◌+◌, true, if◌then◌else◌, OnOk, IfOk, is_some};
ghost use Rattle.std.specs.FinMap as finite;
ghost use Rattle.redone_pages.specs.Ranges.{has_table};
ghost use Rattle.row_turns.specs.States.{may_change, nothing_held, count_in, keys_with, waiting_with, waiting_less, row_changed, rows_less, row_taken_back, tran_committed, turned, is_let, left_with, left_among};

use crate::row::{RowTurn, changed_by, left_in, may_change, taken_by};
use ds_base::{Key, Lrsn, NoMemory, Sequence, TableId};
use ds_model::{Body, LogRecord, RowChange};
use number_map::NumberMap;
use redone_pages::TableRange;
use spot_map::SpotMap;
use std::alloc::Global;

/// What is held of the rows of some tables and of the transactions that change them.
#[derive(Drop)]
pub struct Held {
    pub rows: SpotMap<RowTurn>,
    /// The rows that were changed, in the order of their first changes.
    pub keys: Sequence<(TableId, Key)>,
    /// How many row changes of each transaction are open.
    pub waiting: NumberMap<u64>,
    /// The transactions that have committed, where one of them may go on.
    pub committed: NumberMap<bool>,
    /// How many row changes are open.
    pub unsettled: u64,
}

fn count_in(waiting: &NumberMap<u64>, tran: Lrsn) -> u64
    ensures { result ≡ count_in (finite.get waiting.now tran) }
{
    match waiting.get(tran) {
        None => 0,
        Some(count) => *count,
    }
}

fn wait(waiting: &mut NumberMap<u64>, tran: Lrsn) -> Result<(), NoMemory>
    ensures { OnOk result (waiting.new ≡ waiting_with waiting.old tran) }
{
    let count = count_in(waiting, tran).checked_add(1).ok_or(NoMemory)?;
    waiting.put(tran, count)
}

// One of so many changes isn't open any more.
fn wait_less(waiting: &mut NumberMap<u64>, tran: Lrsn, count: u64) -> Result<(), NoMemory>
    ensures { OnOk result (waiting.new ≡ waiting_less waiting.old tran count) }
{
    waiting.take(tran);
    if 1 < count {
        waiting.put(tran, count - 1)
    } else {
        Ok(())
    }
}

fn enter_key(
    keys: &mut Sequence<(TableId, Key)>,
    row: &Option<RowTurn>,
    table: TableId,
    key: Key,
) -> Result<(), NoMemory>
    ensures { OnOk result (keys.new ≡ keys_with row.now keys.old (table, key)) }
{
    match row {
        None => keys.push((table, key)),
        Some(_) => Ok(()),
    }
}

fn take_back_row(
    rows: &mut SpotMap<RowTurn>,
    row: &Option<RowTurn>,
    table: TableId,
    key: Key,
) -> Result<(), NoMemory>
    ensures { OnOk result (rows.new ≡ rows_less rows.old (table, key) row.now) }
{
    match row {
        None => Ok(()),
        Some(row) => rows.insert(table, key, taken_by(row)),
    }
}

fn note_commit(committed: &mut NumberMap<bool>, is_early: bool, tran: Lrsn) -> Result<(), NoMemory>
    ensures { OnOk result (committed.new ≡ (if is_early then committed.old else finite.insert committed.old tran true)) }
{
    if is_early {
        Ok(())
    } else {
        committed.put(tran, true)
    }
}

fn enter_left(it: &Held, left: &mut SpotMap<bool>, table: TableId, key: Key) -> Result<(), NoMemory>
    ensures { OnOk result (left.new ≡ left_with it.now left.old (table, key)) }
{
    let row = it.rows.get(table, key);
    if left_in(&it.waiting, &row) {
        left.insert(table, key, true)
    } else {
        Ok(())
    }
}

impl Held {
    pub fn new(alloc: Global) -> Held
        ensures { result ≡ nothing_held }
    {
        Held {
            rows: SpotMap::new(alloc),
            keys: Sequence::new(alloc),
            waiting: NumberMap::new(alloc),
            committed: NumberMap::new(alloc),
            unsettled: 0,
        }
    }

    // Counts a change of the transaction as open, where it hasn't committed by then.
    fn open_one(&mut self, tran: Lrsn) -> Result<(), NoMemory>
        ensures rows { self.new.rows ≡ self.old.rows }
        ensures keys { self.new.keys ≡ self.old.keys }
        ensures committed { self.new.committed ≡ self.old.committed }
        ensures waiting { OnOk result (self.new.waiting ≡ (if is_some (finite.get self.old.committed tran) then self.old.waiting else waiting_with self.old.waiting tran)) }
        ensures unsettled { OnOk result (self.new.unsettled ≡ (if is_some (finite.get self.old.committed tran) then self.old.unsettled else self.old.unsettled + 1)) }
    {
        if self.committed.get(tran).is_some() {
            return Ok(());
        }
        self.unsettled = self.unsettled.checked_add(1).ok_or(NoMemory)?;
        wait(&mut self.waiting, tran)
    }

    fn change_row(&mut self, tran: Lrsn, change: &RowChange) -> Result<(), NoMemory>
        ensures { OnOk result (self.new ≡ row_changed self.old tran change.now) }
    {
        let before = self.rows.get(change.table, change.key);
        let next = changed_by(&self.waiting, &before, tran, change.after.is_some())?;
        enter_key(&mut self.keys, &before, change.table, change.key)?;
        self.rows.insert(change.table, change.key, next)?;
        self.open_one(tran)
    }

    fn take_back(&mut self, tran: Lrsn, change: &RowChange) -> Result<(), NoMemory>
        ensures { OnOk result (self.new ≡ row_taken_back self.old tran change.now) }
    {
        let before = self.rows.get(change.table, change.key);
        let count = count_in(&self.waiting, tran);
        take_back_row(&mut self.rows, &before, change.table, change.key)?;
        wait_less(&mut self.waiting, tran, count)?;
        self.unsettled = self.unsettled.saturating_sub(1);
        Ok(())
    }

    fn commit(&mut self, is_early: bool, tran: Lrsn) -> Result<(), NoMemory>
        ensures { OnOk result (self.new ≡ tran_committed is_early self.old tran) }
    {
        let count = count_in(&self.waiting, tran);
        note_commit(&mut self.committed, is_early, tran)?;
        self.waiting.take(tran);
        self.unsettled = self.unsettled.saturating_sub(count);
        Ok(())
    }

    /// Goes on with the record.
    pub fn turn(
        &mut self,
        range: TableRange,
        is_early: bool,
        it: &LogRecord,
    ) -> Result<(), NoMemory>
        ensures { OnOk result (self.new ≡ turned (has_table range) is_early self.old it.now.tran it.now.body) }
    {
        match &it.body {
            Body::RowChange { change } => {
                if range.has_table(change.table) {
                    self.change_row(it.tran, change)
                } else {
                    Ok(())
                }
            }
            Body::Compensation { change, .. } => {
                if range.has_table(change.table) {
                    self.take_back(it.tran, change)
                } else {
                    Ok(())
                }
            }
            Body::Commit => self.commit(is_early, it.tran),
            Body::System { .. } | Body::Ended | Body::Checkpoint { .. } | Body::RestartEnd => {
                Ok(())
            }
        }
    }

    fn lets_change(&self, range: TableRange, tran: Lrsn, change: &RowChange) -> bool
        ensures { result ≡ (if has_table range change.now.table then may_change self.now.waiting (finite.get self.now.rows (change.now.table, change.now.key)) tran else true) }
    {
        if range.has_table(change.table) {
            let row = self.rows.get(change.table, change.key);
            may_change(&self.waiting, &row, tran)
        } else {
            true
        }
    }

    /// Whether the record may be the next one: it changes no row of the tables out of turn.
    pub fn lets(&self, range: TableRange, it: &LogRecord) -> bool
        ensures { result ≡ is_let (has_table range) self.now it.now.tran it.now.body }
    {
        match &it.body {
            Body::RowChange { change } => self.lets_change(range, it.tran, change),
            Body::Compensation { .. }
            | Body::System { .. }
            | Body::Commit
            | Body::Ended
            | Body::Checkpoint { .. }
            | Body::RestartEnd => true,
        }
    }

    fn left(&self, alloc: Global) -> Result<SpotMap<bool>, NoMemory>
        ensures { IfOk result (λ left. left ≡ left_among self.now finite.empty self.now.keys) }
    {
        let mut left = SpotMap::new(alloc);
        for (table, key) in self.keys.as_slice() {
            enter_left(self, &mut left, *table, *key)?;
        }
        Ok(left)
    }

    /// How many rows the committed changes leave.
    pub fn count_left(&self, alloc: Global) -> Result<u64, NoMemory>
        ensures { IfOk result (λ rows. rows ≡ finite.len (left_among self.now finite.empty self.now.keys)) }
    {
        let left = self.left(alloc)?;
        Ok(left.len() as u64)
    }
}
