ghost use Rattle.std.specs.Prelude.{◌≡◌};

use crate::LogRecord;
use ds_base::MemberId;
use ds_model::RecordList;

/// What stands in the log of a member: whole records, and then a tail that is no whole record.
#[derive(Debug, Drop)]
pub struct Log {
    /// The member whose log it is.
    pub member: MemberId,
    /// The whole records, in the order of the log.
    pub records: RecordList,
    /// How many bytes the whole records have.
    pub length: u64,
    /// How many bytes follow them.
    pub tail: u64,
}

impl Log {
    /// The whole records, in the order of the log.
    pub fn records(&self) -> &[LogRecord]
        ensures { result.now ≡ self.now.records }
    {
        self.records.as_slice()
    }

    /// How many bytes the whole records have.
    pub fn length(&self) -> u64
        ensures { result ≡ self.now.length }
    {
        self.length
    }

    /// How many bytes follow the whole records.
    pub fn tail(&self) -> u64
        ensures { result ≡ self.now.tail }
    {
        self.tail
    }
}
