use ds_base::{Lrsn, MemberId, Sequence};
use ds_model::{Body, LogRecord, Version};
use log_merge::merge;
use log_record::Log;
use std::alloc::Global;
use std::test::Fail;

/// A commit, or the end of a restart where there is no transaction.
fn record(lrsn: u128, tran: u128) -> Result<LogRecord, Fail> {
    let lrsn = Lrsn::new(lrsn).ok_or("a number")?;
    let tran = Lrsn::new(tran).ok_or("a number")?;
    let body = if tran.number() == 0 {
        Body::RestartEnd
    } else {
        Body::Commit
    };
    Ok(LogRecord {
        version: Version::Two,
        lrsn,
        tran,
        body,
    })
}

/// A log of records with these numbers and transactions.
fn log(alloc: Global, member: u64, numbers: &[(u128, u128)]) -> Result<Log, Fail> {
    let member = MemberId::new(member).ok_or("a member")?;
    let mut records = Sequence::new(alloc);
    for (lrsn, tran) in numbers {
        records.push(record(*lrsn, *tran)?)?;
    }
    Ok(Log {
        member,
        records,
        length: 0,
        tail: 0,
    })
}

/// Whether the records are those of these transactions.
fn are_of(records: &[LogRecord], trans: &[u128]) -> bool {
    for (at, record) in records.iter().enumerate() {
        if trans.get(at).copied() != Some(record.tran.number()) {
            return false;
        }
    }
    records.len() == trans.len()
}

/// Whether the records of the logs, merged, are those of these transactions.
fn merges_to(alloc: Global, logs: &[Log], trans: &[u128]) -> Result<bool, Fail> {
    let merged = merge(alloc, logs)?;
    Ok(are_of(merged.records(), trans))
}

#[test]
fn logs_are_merged_by_number_log_and_place(rt: HostRuntime) -> Result<(), Fail> {
    let alloc = rt.alloc();
    let logs = [
        log(alloc, 1, &[(2, 1), (2, 2), (7, 0), (9, 3)])?,
        log(alloc, 2, &[])?,
        log(alloc, 3, &[(5, 4), (2, 5)])?,
    ];
    assert!(rt; merges_to(alloc, &logs, &[1, 2, 5, 4, 3])?);
    Ok(())
}
