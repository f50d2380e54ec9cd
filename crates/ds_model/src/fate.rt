use crate::Name;
use ds_base::{Lrsn, MemberId, RowList, Sequence, TableId, TranId, Value};

/// What a `get`, a `getu` or a `scan` has read.
#[derive(Debug, Drop)]
pub enum Answer {
    Value(Option<Value>),
    Rows(RowList),
}

/// The answers of a transaction's `get`s, `getu`s and `scan`s, in their order.
pub type Reads = Sequence<Answer>;

/// Transactions of which each waits for the next, and the last for the first.
pub type Cycle = Sequence<TranId>;

/// Why a transaction was refused.
#[derive(Debug, Drop)]
pub enum Refusal {
    /// It doesn't wait, and another transaction held a conflicting lock.
    Held { name: Name, by: TranId },
    /// A failed member's lock stood in the way.
    Retained { name: Name, by: MemberId },
    /// It was the highest of transactions that wait for one another.
    Deadlock { cycle: Cycle },
    /// The table's heap had all the pages that it may have, with no free slot.
    SpaceFull { table: TableId, pages: u32 },
    /// The lock structure had no room for one more record.
    RecordsFull { limit: u32 },
    /// No number for a log record was left.
    LrsnEnd { at: Lrsn },
    Memory,
    /// The transaction asked for it.
    Aborted,
}

/// What became of a transaction.
#[derive(Debug, Drop)]
pub enum Fate {
    Committed { answered: bool, reads: Reads },
    Refused(Refusal),
    Stopped,
}
