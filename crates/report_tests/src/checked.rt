use crate::trans::{member, part, script_of, table, tran, value};
use ds_base::{Lrsn, Place, RowList, Sequence};
use ds_model::{Answer, Body, Entry, Fate, LogRecord, Reads, Refusal, RowChange, Script, Version};
use log_record::Log;
use report_check::{is_sound, rows_of};
use std::alloc::Global;
use std::test::Fail;

/// Member 1 has the first transaction, and member 2 the other two.
fn script(alloc: Global) -> Result<Script, Fail> {
    let first = part(1, vec![in alloc; tran(alloc, 1)?]?)?;
    let second = part(2, vec![in alloc; tran(alloc, 2)?, tran(alloc, 3)?]?)?;
    script_of(alloc, vec![in alloc; first, second]?)
}

fn change(alloc: Global, key: u64) -> Result<Body, Fail> {
    Ok(Body::RowChange {
        change: RowChange {
            table: table(),
            key,
            place: Place { page: 1, slot: 0 },
            before: None,
            after: Some(value(alloc)?),
        },
    })
}

fn record(lrsn: u128, tran: u128, body: Body) -> Result<LogRecord, Fail> {
    Ok(LogRecord {
        version: Version::Two,
        lrsn: Lrsn::new(lrsn).ok_or("a number")?,
        tran: Lrsn::new(tran).ok_or("a number")?,
        body,
    })
}

/// The log of a member that has committed one transaction, with one change.
fn log(alloc: Global, number: u64, lrsn: u128, commit: u128, key: u64) -> Result<Log, Fail> {
    let change = record(lrsn, lrsn, change(alloc, key)?)?;
    let commit = record(commit, lrsn, Body::Commit)?;
    Ok(Log {
        member: member(number)?,
        records: Sequence::from_vec(vec![in alloc; change, commit]?),
        length: 0,
        tail: 0,
    })
}

/// Both logs, where the second has a change of this row.
fn logs(alloc: Global, key: u64) -> Result<Vec<Log>, Fail> {
    let first = log(alloc, 1, 5, 7, 1)?;
    Ok(vec![in alloc; first, log(alloc, 2, 6, 8, key)?]?)
}

fn entry(alloc: Global, number: u32, fate: Fate) -> Result<Entry, Fail> {
    Ok(Entry {
        member: member(if number == 1 { 1 } else { 2 })?,
        tran: tran(alloc, number)?,
        fate,
    })
}

fn committed(reads: Reads) -> Fate {
    Fate::Committed {
        answered: true,
        reads,
    }
}

/// Entries of a report in which so many reads are printed.
fn entries(alloc: Global, count: usize) -> Result<Vec<Entry>, Fail> {
    let mut reads = Reads::new(alloc);
    for _ in 0..count {
        reads.push(Answer::Value(None))?;
    }
    let first = entry(alloc, 1, committed(Reads::new(alloc)))?;
    let second = entry(alloc, 2, committed(reads))?;
    let third = entry(alloc, 3, Fate::Refused(Refusal::Aborted))?;
    Ok(vec![in alloc; first, second, third]?)
}

/// Whether it is sound, where the second log has a change of this row, so many reads are printed, and the second log had so many
/// records at the opening.
fn sound(alloc: Global, key: u64, reads: usize, had: usize) -> Result<bool, Fail> {
    let script = script(alloc)?;
    let entries = entries(alloc, reads)?;
    let logs = logs(alloc, key)?;
    let opening = RowList::new(alloc);
    Ok(is_sound(alloc, &script, &opening, &entries, &logs, &[0, had])?)
}

fn count_rows(alloc: Global) -> Result<usize, Fail> {
    let logs = logs(alloc, 2)?;
    Ok(rows_of(alloc, &logs)?.len())
}

#[test]
fn a_report_is_held_against_script_reads_and_logs(rt: HostRuntime) -> Result<(), Fail> {
    let alloc = rt.alloc();
    for (key, reads, had, expected) in [
        (2, 1, 0, true),
        (3, 1, 0, false),
        (2, 0, 0, false),
        (2, 1, 2, false),
    ] {
        assert!(rt; sound(alloc, key, reads, had)? == expected);
    }
    assert!(rt; count_rows(alloc)? == 2);
    Ok(())
}
