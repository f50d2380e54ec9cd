use crate::Name;
use ds_base::{Bytes, Key, Lrsn, MemberId, RowList, Sequence, TableId, Value};

/// An answer as it is printed, with what was asked.
#[derive(Debug, Drop)]
pub enum ToldRead {
    Get {
        table: TableId,
        key: Key,
        value: Option<Value>,
    },
    Scan {
        table: TableId,
        low: Key,
        high: Key,
        rows: RowList,
    },
}

pub type ToldReads = Sequence<ToldRead>;

/// Names of transactions.
pub type NameList = Sequence<Bytes>;

/// A refusal as it is printed, with names in place of transaction numbers.
#[derive(Debug, Drop)]
pub enum ToldRefusal {
    Held { name: Name, by: Bytes },
    Retained { name: Name, by: MemberId },
    Deadlock { cycle: NameList },
    SpaceFull { table: TableId, pages: u32 },
    RecordsFull { limit: u32 },
    LrsnEnd { at: Lrsn },
    Memory,
    Aborted,
}

/// A fate as it is printed.
#[derive(Debug, Drop)]
pub enum Told {
    Committed { answered: bool, reads: ToldReads },
    Refused(ToldRefusal),
    Stopped,
}

/// A transaction of the report.
#[derive(Debug, Drop)]
pub struct ReportEntry {
    pub name: Bytes,
    pub member: MemberId,
    pub told: Told,
}

pub type ReportEntryList = Sequence<ReportEntry>;

/// The event of the journal at which a refusal's cause held. Events are counted from 1.
#[derive(Debug, Drop)]
pub struct CauseLine {
    pub name: Bytes,
    pub place: u64,
}

pub type CauseLineList = Sequence<CauseLine>;

/// An event of the journal, by its place from 1, its member (0 for the group) and its choice, with the words of
/// its command and of the reply.
#[derive(Debug, Drop)]
pub struct EventLine {
    pub place: u64,
    pub member: u8,
    pub choice: u64,
    pub command: Bytes,
    pub reply: Bytes,
}

pub type EventLineList = Sequence<EventLine>;

/// What is printed of a journal, where that is asked for: the refusals' causes, and then all events.
#[derive(Debug, Drop)]
pub struct Trace {
    pub causes: CauseLineList,
    pub events: EventLineList,
}

/// What is printed of a run: its transactions, its trace, the rows afterwards and the status.
#[derive(Debug, Drop)]
pub struct Report {
    pub entries: ReportEntryList,
    pub trace: Trace,
    pub rows: RowList,
    pub status: u8,
}
