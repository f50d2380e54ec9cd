use ds_base::MemberId;
use ds_model::LogRecord;

/// What was taken of logs that are read by blocks.
#[derive(Debug, Drop)]
pub enum Taken {
    /// The next record, and whose log it is of.
    Record {
        member: MemberId,
        it: LogRecord,
    },
    /// So many bytes of the member's log are wanted, from this one on.
    Wants {
        member: MemberId,
        at: u64,
        count: u32,
    },
    /// The field that begins at this byte of the member's log isn't allowed; or its length is named, where the bytes before
    /// it are no whole record.
    Bad {
        member: MemberId,
        at: u64,
    },
    /// All records are taken.
    End,
}
