use crate::disks::{disk_with, first};
use log_volume::{LogFault, open_log};
use std::alloc::Global;
use std::test::Fail;

/// A Commit of transaction 5, numbered 5, and 10 bytes of another.
const LOG: [u8; 32] = [
    0, 0, 0, 0x16, 4, 1, 0, 0, 0, 0, 0, 5, 0, 0, 0, 0, 0, 5, 0, 0, 0, 0x16, 0, 0, 0, 0x16, 4, 1, 0,
    0, 0, 0,
];

/// That log, where the first record has a kind that none has.
fn damaged_log() -> [u8; 32] {
    let mut bytes = LOG;
    bytes[4] = 0x63;
    bytes
}

/// Whether so many records are read, of so many bytes, before a tail of so many.
fn has_parts(alloc: Global, records: usize, length: u64, tail: u64) -> Result<bool, Fail> {
    let mut disk = disk_with(alloc, &LOG)?;
    let Ok(log) = open_log(alloc, &mut disk, first()) else {
        return Ok(false);
    };
    Ok(log.records().len() == records && log.length() == length && log.tail() == tail)
}

/// Whether that log is damaged at this byte.
fn is_damaged(alloc: Global, place: u64) -> Result<bool, Fail> {
    let mut disk = disk_with(alloc, &damaged_log())?;
    let read = open_log(alloc, &mut disk, first());
    Ok(matches!(&read, Err(LogFault::Damaged { at }) if *at == place))
}

#[test]
fn a_commit_and_ten_bytes_are_a_record_and_a_tail(rt: HostRuntime) -> Result<(), Fail> {
    assert!(rt; has_parts(rt.alloc(), 1, 22, 10)?);
    Ok(())
}

#[test]
fn a_kind_that_no_record_has_is_damage(rt: HostRuntime) -> Result<(), Fail> {
    assert!(rt; is_damaged(rt.alloc(), 4)?);
    Ok(())
}
