ghost use Rattle.std.specs.Prelude.{◌≡◌, ◌-◌, ◌++◌, if◌then◌else◌, length, take, drop, OnOk};
ghost use Rattle.log_trans.specs.Courses.{row_record, new_course, is_next, undone_one, after_body, is_open};

use ds_base::{Lrsn, NoMemory, Sequence};
use ds_model::{Body, LogRecord, RecordList, RowChange};
use std::alloc::Global;
use std::mem;

/// What the records of a transaction come to.
#[derive(Debug, Drop)]
pub struct Course {
    /// The row changes that aren't undone, in the order of the log.
    pub undo: RecordList,
    /// Those that are, in the order of their compensations.
    pub undone: RecordList,
    pub is_committed: bool,
    pub is_ended: bool,
}

fn row_record(it: &LogRecord, change: &RowChange) -> LogRecord
    ensures { result ≡ row_record it.now change.now }
{
    LogRecord {
        version: it.version,
        lrsn: it.lrsn,
        tran: it.tran,
        body: Body::RowChange { change: *change },
    }
}

/// Whether the last of these row changes has this number.
pub fn is_next(undone: Lrsn, undo: &[LogRecord]) -> bool
    ensures { result ≡ is_next undone undo.now }
{
    match undo.last() {
        None => false,
        Some(last) => last.lrsn.number() == undone.number(),
    }
}

// Takes the last item, if there is one, and adds it to the others.
#[tactic(auto, using(crate::proofs::Lasts::last_of))]
fn move_last<T: Drop>(
    alloc: Global,
    from: &mut Sequence<T>,
    to: &mut Sequence<T>,
) -> Result<(), NoMemory>
    ensures from { OnOk result (from.new ≡ take (length from.old - 1) from.old) }
    ensures to { OnOk result (to.new ≡ to.old ++ drop (length from.old - 1) from.old) }
{
    let mut items = mem::replace(from, Sequence::new(alloc)).into_vec();
    let last = items.pop();
    *from = Sequence::from_vec(items);
    if let Some(item) = last {
        to.push(item)?;
    }
    Ok(())
}

impl Course {
    pub fn new(alloc: Global) -> Course
        ensures { result ≡ new_course }
    {
        Course {
            undo: Sequence::new(alloc),
            undone: Sequence::new(alloc),
            is_committed: false,
            is_ended: false,
        }
    }

    fn compensate(&mut self, alloc: Global, undone: Lrsn) -> Result<(), NoMemory>
        ensures { OnOk result (self.new ≡ (if is_next undone self.old.undo then undone_one self.old else self.old)) }
    {
        if is_next(undone, self.undo.as_slice()) {
            move_last(alloc, &mut self.undo, &mut self.undone)?;
        }
        Ok(())
    }

    /// Takes a record of the transaction into account.
    pub fn enter(&mut self, alloc: Global, it: &LogRecord) -> Result<(), NoMemory>
        ensures { OnOk result (self.new ≡ after_body self.old it.now it.now.body) }
    {
        match &it.body {
            Body::RowChange { change } => self.undo.push(row_record(it, change))?,
            Body::Compensation { undone, .. } => self.compensate(alloc, *undone)?,
            Body::Commit => self.is_committed = true,
            Body::Ended => self.is_ended = true,
            Body::System { .. } | Body::Checkpoint { .. } | Body::RestartEnd => {}
        }
        Ok(())
    }

    /// Whether it has neither a Commit nor an Ended record.
    pub fn is_open(&self) -> bool
        ensures { result ≡ is_open self.now }
    {
        !self.is_committed && !self.is_ended
    }
}
