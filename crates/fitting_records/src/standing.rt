ghost use Rattle.std.specs.Prelude.{◌≡◌, ◌-◌, length, take, OnOk};
ghost use Rattle.log_trans.specs.Courses.{row_record, is_next};
ghost use Rattle.fitting_records.specs.Standings.{new_standing, takes_last, may_take, taken_back, after_body, changed};

use crate::inverses::inverts_body;
use ds_base::{Lrsn, NoMemory, Sequence};
use ds_model::{Body, LogRecord, RecordList, RowChange};
use std::alloc::Global;
use std::mem;

/// What the records of a transaction come to, as far as the next one must fit it.
#[derive(Drop)]
pub struct Standing {
    /// Its row changes that aren't undone, in the order of the log, until it is committed.
    pub undo: RecordList,
    /// None of its row changes is undone.
    pub is_forward: bool,
    pub is_committed: bool,
}

fn row_record(it: &LogRecord, change: &RowChange) -> LogRecord
    ensures { result ≡ row_record it.now change.now }
{
    LogRecord {
        version: it.version,
        lrsn: it.lrsn,
        tran: it.tran,
        body: Body::RowChange { change: *change },
    }
}

fn is_next(undone: Lrsn, undo: &[LogRecord]) -> bool
    ensures { result ≡ is_next undone undo.now }
{
    match undo.last() {
        None => false,
        Some(last) => last.lrsn.number() == undone.number(),
    }
}

// Whether the change takes back the last of these.
fn takes_last(change: &RowChange, undo: &[LogRecord]) -> bool
    ensures { result ≡ takes_last change.now undo.now }
{
    match undo.last() {
        None => false,
        Some(last) => inverts_body(change, &last.body),
    }
}

fn drop_last(alloc: Global, records: &mut RecordList)
    ensures { records.new ≡ take (length records.old - 1) records.old }
{
    let mut items = mem::replace(records, Sequence::new(alloc)).into_vec();
    items.pop();
    *records = Sequence::from_vec(items);
}

impl Standing {
    pub fn new(alloc: Global) -> Standing
        ensures { result ≡ new_standing }
    {
        Standing {
            undo: Sequence::new(alloc),
            is_forward: true,
            is_committed: false,
        }
    }

    /// Whether a record with this body may follow.
    pub fn may_take(&self, body: &Body) -> bool
        ensures { result ≡ may_take self.now body.now }
    {
        match body {
            Body::RowChange { .. } => self.is_forward,
            Body::Compensation { change, undone } => {
                let undo = self.undo.as_slice();
                !self.is_committed && is_next(*undone, undo) && takes_last(change, undo)
            }
            Body::Commit => !self.is_committed && self.is_forward,
            Body::Ended => self.is_committed || (self.undo.is_empty() && !self.is_forward),
            Body::System { .. } | Body::Checkpoint { .. } | Body::RestartEnd => true,
        }
    }

    fn take_back(&mut self, alloc: Global, undone: Lrsn)
        ensures { self.new ≡ taken_back self.old undone }
    {
        if is_next(undone, self.undo.as_slice()) {
            drop_last(alloc, &mut self.undo);
            self.is_forward = false;
        }
    }

    fn add_change(&mut self, it: LogRecord) -> Result<(), NoMemory>
        ensures { OnOk result (self.new ≡ changed self.old it) }
    {
        if self.is_committed {
            return Ok(());
        }
        self.undo.push(it)
    }

    /// Takes a record of the transaction into account.
    pub fn enter(&mut self, alloc: Global, it: &LogRecord) -> Result<(), NoMemory>
        ensures { OnOk result (self.new ≡ after_body self.old it.now it.now.body) }
    {
        match &it.body {
            Body::RowChange { change } => self.add_change(row_record(it, change))?,
            Body::Compensation { undone, .. } => self.take_back(alloc, *undone),
            Body::Commit => {
                self.undo = Sequence::new(alloc);
                self.is_committed = true;
            }
            Body::Ended | Body::System { .. } | Body::Checkpoint { .. } | Body::RestartEnd => {}
        }
        Ok(())
    }
}
