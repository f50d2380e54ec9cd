//! How a call ends.

ghost use Rattle.std.specs.Prelude.{◌≡◌, false, []};
ghost use Rattle.group_run.specs.Reports.{empty_report};
ghost use Rattle.group_run.specs.Statuses.{number_of};
ghost use Rattle.group_run.specs.Ends.{Tells, TellsLine};

use crate::status::{Status, text_of};
use crate::telling::empty_report;
use checked_run::{Account, CauseList, FailList, Journal, no_account};
use ds_base::{NoMemory, RowList, Sink};
use ds_model::Report;
use std::alloc::Global;
use whole_streams::write_all;

/// What a call leaves.
///
/// `opened` says whether the words and the script were in order, the logs of the disk were read, and the opening group restart was
/// done, so that a run began. `opening` has the rows for which the logs stood before. `journal` has the numbers of the run's events,
/// `causes` the transactions that were refused, each with the place of the event in which the cause held, and `faults` the places of the
/// events in which a call of the disk failed. Where no run began these four are empty, and the report has no entries.
#[derive(Drop)]
pub struct Finished<D> {
    pub status: Status,
    pub opened: bool,
    pub disk: D,
    pub report: Report,
    pub journal: Journal,
    pub causes: CauseList,
    pub faults: FailList,
    pub opening: RowList,
}

/// Writes the text of a status, and answers the status that stands in the end.
pub fn tell<K: Sink>(sink: &mut K, met: Status, text: &[u8]) -> Status
    requires { met ≡ Status.SinkFailed → ⊥ }
    ensures { Tells met result text.now (K.taken sink.old) (K.taken sink.new) (K.faults sink.old) (K.faults sink.new) }
{
    match write_all(sink, text) {
        Ok(()) => met,
        Err(_) => Status::SinkFailed,
    }
}

/// Tells the line of a status, and answers the status that stands in the end.
pub fn tell_line<K: Sink>(alloc: Global, sink: &mut K, met: Status) -> Status
    requires { met ≡ Status.SinkFailed → ⊥ }
    ensures { TellsLine met result (K.taken sink.old) (K.taken sink.new) (K.faults sink.old) (K.faults sink.new) }
{
    match text_of(alloc, &met) {
        Ok(text) => tell(sink, met, text.as_slice()),
        Err(NoMemory) => Status::NoMemory,
    }
}

/// A call that opened no run and has no report.
pub fn finish_unopened<D>(alloc: Global, disk: D, status: Status) -> Finished<D>
    ensures { result ≡ record { status = status; opened = false; disk = disk; report = empty_report (number_of status); journal = []; causes = []; faults = []; opening = [] } }
{
    let Account {
        journal,
        causes,
        faults,
    } = no_account(alloc);
    Finished {
        status,
        opened: false,
        disk,
        report: empty_report(alloc, status.number()),
        journal,
        causes,
        faults,
        opening: RowList::new(alloc),
    }
}
