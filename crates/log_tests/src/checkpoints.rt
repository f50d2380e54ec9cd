use crate::parts::part_of;
use log_checkpoint::{CheckpointSearch, Found};
use std::alloc::Global;
use std::test::Fail;

/// The end of transaction 1, of version 1.
const OLD_ENDED: [u8; 22] = [
    0, 0, 0, 0x16, 5, 1, 0, 0, 0, 0, 0, 4, 0, 0, 0, 0, 0, 1, 0, 0, 0, 0x16,
];

/// A checkpoint of version 1, whose offset is its own place behind that.
const OLD_CHECKPOINT: [u8; 30] = [
    0, 0, 0, 0x1e, 6, 1, 0, 0, 0, 0, 0, 4, 0, 0, 0, 0, 0, 0, 0, 0, 0, 0, 0, 0, 0, 0x16, 0, 0, 0,
    0x1e,
];

/// A checkpoint of version 2, whose offset is its own place behind both.
const CHECKPOINT: [u8; 38] = [
    0, 0, 0, 0x26, 6, 2, 0, 0, 0, 0, 0, 0, 0, 0, 0, 5, 0, 0, 0, 0, 0, 0, 0, 0, 0, 0, 0, 0, 0, 0, 0,
    0, 0, 0x34, 0, 0, 0, 0x26,
];

/// The end of transaction 2, of version 2.
const ENDED: [u8; 30] = [
    0, 0, 0, 0x1e, 5, 2, 0, 0, 0, 0, 0, 0, 0, 0, 0, 6, 0, 0, 0, 0, 0, 0, 0, 0, 0, 2, 0, 0, 0, 0x1e,
];

/// These records, the last one a thousand times.
fn long_log(alloc: Global) -> Result<Vec<u8>, Fail> {
    let mut log = Vec::new(alloc);
    log.extend_from_slice(&OLD_ENDED)?;
    log.extend_from_slice(&OLD_CHECKPOINT)?;
    log.extend_from_slice(&CHECKPOINT)?;
    for _ in 0..1_000usize {
        log.extend_from_slice(&ENDED)?;
    }
    Ok(log)
}

/// What the search comes to, from this end of the log.
fn found_from(alloc: Global, log: &[u8], end: u64) -> Result<Found, Fail> {
    let mut search = CheckpointSearch::new(alloc, end, 16_384);
    for _ in 0..10usize {
        match search.search(alloc)? {
            Found::Wants { at, count } => search.fill(alloc, part_of(log, at, count)?)?,
            found => return Ok(found),
        }
    }
    Err("the search doesn't end".into())
}

#[test]
fn the_last_checkpoint_is_found_behind_more_than_a_block(rt: HostRuntime) -> Result<(), Fail> {
    let alloc = rt.alloc();
    let log = long_log(alloc)?;
    for (end, found) in [
        (30_090, Found::At { at: 52, offset: 52 }),
        (52, Found::At { at: 22, offset: 22 }),
        (22, Found::Missing),
        (21, Found::Broken),
    ] {
        assert!(rt; found_from(alloc, &log, end)? == found);
    }
    Ok(())
}
