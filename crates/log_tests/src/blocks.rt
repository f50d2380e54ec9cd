use crate::disks::{disk_with, first};
use disk_heads::{LogFault, find_end, next_record};
use ds_disk::MemoryDisk;
use log_head::Head;
use std::alloc::Global;
use std::test::Fail;

/// A Commit of transaction 5, numbered 5, its end, and 10 bytes of another.
const LOG: [u8; 54] = [
    0, 0, 0, 0x16, 4, 1, 0, 0, 0, 0, 0, 5, 0, 0, 0, 0, 0, 5, 0, 0, 0, 0x16, 0, 0, 0, 0x16, 5, 1, 0,
    0, 0, 0, 0, 5, 0, 0, 0, 0, 0, 5, 0, 0, 0, 0x16, 0, 0, 0, 0x16, 4, 1, 0, 0, 0, 0,
];

/// That log, where the second record has a kind that none has.
fn damaged_log() -> [u8; 54] {
    let mut bytes = LOG;
    bytes[26] = 0x63;
    bytes
}

/// How many records are taken of the first member's log, which is read by blocks of seven bytes.
fn count_records(alloc: Global, disk: &mut MemoryDisk, end: u64) -> Result<usize, Fail> {
    let mut head = Head::new(alloc, 0, end);
    let mut block = [0u8; 7];
    for count in 0..100usize {
        if next_record(alloc, disk, first(), &mut head, &mut block)?.is_none() {
            return Ok(count);
        }
    }
    Err("the log doesn't end".into())
}

/// How many records are taken of a log of these bytes.
fn count_taken(alloc: Global, bytes: &[u8]) -> Result<usize, Fail> {
    let mut disk = disk_with(alloc, bytes)?;
    count_records(alloc, &mut disk, bytes.len() as u64)
}

/// Whether the whole records of a log of these bytes end here.
fn ends_at(alloc: Global, bytes: &[u8], place: u64) -> Result<bool, Fail> {
    let mut disk = disk_with(alloc, bytes)?;
    let found = find_end(alloc, &mut disk, first());
    Ok(matches!(&found, Ok(at) if *at == place))
}

/// Whether a log of these bytes is damaged at this one.
fn is_damaged(alloc: Global, bytes: &[u8], place: u64) -> Result<bool, Fail> {
    let mut disk = disk_with(alloc, bytes)?;
    let found = find_end(alloc, &mut disk, first());
    Ok(matches!(&found, Err(LogFault::Damaged { at }) if *at == place))
}

#[test]
fn records_are_taken_up_to_the_tail(rt: HostRuntime) -> Result<(), Fail> {
    let alloc = rt.alloc();
    assert!(rt; count_taken(alloc, &LOG)? == 2);
    assert!(rt; ends_at(alloc, &LOG, 44)?);
    assert!(rt; is_damaged(alloc, &damaged_log(), 26)?);
    Ok(())
}
