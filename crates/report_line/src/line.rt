use ds_base::{Bytes, Key, MemberId, Row, TableId, Value};
use ds_model::{CauseLine, EventLine, ToldRefusal};

/// A line of a report.
#[derive(Debug, Drop)]
pub enum ReportLine {
    /// The first line of each report.
    Opening,
    Committed {
        name: Bytes,
        member: MemberId,
        answered: bool,
    },
    Refused {
        name: Bytes,
        member: MemberId,
        refusal: ToldRefusal,
    },
    Stopped {
        name: Bytes,
        member: MemberId,
    },
    /// What a `get` read, or a row of a scan.
    Read {
        table: TableId,
        key: Key,
        value: Option<Value>,
    },
    /// A scan with the count of its rows, which follow.
    Scan {
        table: TableId,
        low: Key,
        high: Key,
        count: u64,
    },
    Cause(CauseLine),
    Event(EventLine),
    /// The count of the rows afterwards, which follow.
    Rows {
        count: u64,
    },
    Row(Row),
    End {
        status: u8,
    },
}
