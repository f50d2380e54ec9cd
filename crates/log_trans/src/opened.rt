ghost use Rattle.std.specs.Prelude.{◌≡◌, OnOk, IfOk};
ghost use Rattle.std.specs.FinMap as finite;
ghost use Rattle.log_trans.specs.Courses.{with_record, courses_of, open_among, open_trans};

use crate::course::Course;
use ds_base::{Lrsn, NoMemory, Sequence};
use ds_model::{LogRecord, RecordList};
use log_record::Log;
use number_map::NumberMap;
use std::alloc::Global;

/// A transaction that has neither a Commit nor an Ended record.
#[derive(Debug, Drop)]
pub struct OpenTran {
    /// Its number, which is that of its first record.
    pub id: Lrsn,
    /// The records of its row changes that aren't compensated, in the order of the log: they are undone from the last to
    /// the first.
    pub undo: RecordList,
    /// Those that are compensated already, in the order of their compensations.
    pub undone: RecordList,
}

/// Takes a record into account for its transaction, if it has one.
#[tactic(auto, using(number_map::proofs::Maps::put_back))]
pub fn enter_record(
    alloc: Global,
    courses: &mut NumberMap<Course>,
    it: &LogRecord,
) -> Result<(), NoMemory>
    ensures { OnOk result (courses.new ≡ with_record courses.old it.now) }
{
    if it.tran.number() == 0 {
        return Ok(());
    }
    let mut course = match courses.take(it.tran) {
        Some(course) => course,
        None => Course::new(alloc),
    };
    course.enter(alloc, it)?;
    courses.put(it.tran, course)
}

fn courses_of(alloc: Global, records: &[LogRecord]) -> Result<NumberMap<Course>, NoMemory>
    ensures { IfOk result (λ courses. courses ≡ courses_of records.now) }
{
    let mut courses = NumberMap::new(alloc);
    for record in records {
        enter_record(alloc, &mut courses, record)?;
    }
    Ok(courses)
}

fn open_among(
    alloc: Global,
    entries: Sequence<(Lrsn, Course)>,
) -> Result<Sequence<OpenTran>, NoMemory>
    ensures { IfOk result (λ found. found ≡ open_among entries) }
{
    let mut opened = Sequence::new(alloc);
    for (id, course) in entries.into_vec() {
        if course.is_open() {
            let Course { undo, undone, .. } = course;
            opened.push(OpenTran { id, undo, undone })?;
        }
    }
    Ok(opened)
}

/// The transactions of a log that are open, in the order of their numbers.
///
/// It takes time in the number of records times the logarithm of the number of transactions.
pub fn open_trans(alloc: Global, log: &Log) -> Result<Sequence<OpenTran>, NoMemory>
    ensures { IfOk result (λ found. found ≡ open_trans log.now.records) }
{
    let courses = courses_of(alloc, log.records())?;
    open_among(alloc, courses.into_list(alloc)?)
}
