//! The records that a restart writes: those that take a change back, and those that end a transaction.

ghost use Rattle.std.specs.Prelude.{◌≡◌, true};
ghost use Rattle.ds_model.specs.RecordBytes.{Fits};
ghost use Rattle.restart_records.specs.Written.{back_record, ended_record, both_fit, both_logged};

use crate::trans::Newest;
use ds_base::Lrsn;
use ds_model::{Body, LogRecord, Version};
use log_record::{compensation_of, record_length};
use member_log::MemberLog;

/// The record of this number by which the change of an open transaction is taken back.
pub fn back_record(id: Lrsn, lrsn: Lrsn, it: &Newest) -> LogRecord
    ensures { result ≡ back_record id lrsn it.now }
{
    LogRecord {
        version: Version::Two,
        lrsn,
        tran: id,
        body: compensation_of(&it.change, it.lrsn),
    }
}

pub fn ended_record(id: Lrsn, lrsn: Lrsn) -> LogRecord
    ensures { result ≡ ended_record id lrsn }
{
    LogRecord {
        version: Version::Two,
        lrsn,
        tran: id,
        body: Body::Ended,
    }
}

/// Whether the log buffer has room for both records.
pub fn both_fit(log: &MemberLog, back: &LogRecord, ended: &LogRecord) -> bool
    requires fits { Fits back.now × Fits ended.now }
    ensures { result ≡ both_fit log.now back.now ended.now }
{
    record_length(back) + record_length(ended) <= log.room() as usize
}

/// Puts the one record, and the other behind it where the change was the last that stood.
pub fn put_both(log: &mut MemberLog, back: &LogRecord, ended: &LogRecord, is_last: bool)
    requires fits { Fits back.now × Fits ended.now }
    requires room { both_fit log.old back.now ended.now ≡ true }
    ensures { log.new ≡ both_logged log.old back.now ended.now is_last }
{
    let _ = log.put(back);
    if is_last {
        let _ = log.put(ended);
    }
}
