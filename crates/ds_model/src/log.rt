use ds_base::{Key, Lrsn, Place, Sequence, TableId, Value};
use page_format::Patches;

/// A change of a row; an absent value means no row.
#[derive(Clone, Copy, Debug)]
pub struct RowChange {
    pub table: TableId,
    pub key: Key,
    pub place: Place,
    pub before: Option<Value>,
    pub after: Option<Value>,
}

/// What a log record says.
#[derive(Debug, Drop)]
pub enum Body {
    /// A transaction changed a row.
    RowChange { change: RowChange },
    /// The row change of this number was taken back; the change is its inverse.
    Compensation { change: RowChange, undone: Lrsn },
    /// Pages were changed for no transaction: formats, slots given, splits.
    System { patches: Patches },
    /// The transaction is committed.
    Commit,
    /// All changes of the transaction are taken back.
    Ended,
    /// Reading of the log begins at this byte.
    Checkpoint { offset: u64 },
    /// A restart of the group has come to its end.
    RestartEnd,
}

/// The layout of a record's bytes: numbers (LRSNs) have 6 bytes in version 1, and 10 in version 2.
#[derive(Clone, Copy, Debug, PartialEq, Eq)]
pub enum Version {
    /// Version 1, in which records are read alone.
    One,
    /// Version 2, in which they are written too.
    Two,
}

/// A record of a log. `tran` is the number of its transaction's first record, and 0 where it belongs to none. The version
/// says nothing but how the record is spelled.
#[derive(Debug, Drop)]
pub struct LogRecord {
    pub version: Version,
    pub lrsn: Lrsn,
    pub tran: Lrsn,
    pub body: Body,
}

pub type RecordList = Sequence<LogRecord>;
