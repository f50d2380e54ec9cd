use crate::parts::part_of;
use log_end::{Standing, WholeEnd};
use std::alloc::Global;
use std::test::Fail;

/// A commit of transaction 1, of version 1, its end, of version 2, and 16 of the 30 bytes of another commit.
const LOG: [u8; 68] = [
    0, 0, 0, 0x16, 4, 1, 0, 0, 0, 0, 0, 2, 0, 0, 0, 0, 0, 1, 0, 0, 0, 0x16, 0, 0, 0, 0x1e, 5, 2, 0,
    0, 0, 0, 0, 0, 0, 0, 0, 2, 0, 0, 0, 0, 0, 0, 0, 0, 0, 1, 0, 0, 0, 0x1e, 0, 0, 0, 0x1e, 4, 2, 0,
    0, 0, 0, 0, 0, 0, 0, 0, 7,
];

/// That log, where the second record has a kind that none has.
fn damaged_log() -> [u8; 68] {
    let mut bytes = LOG;
    bytes[26] = 0xff;
    bytes
}

/// What is told of the log's end, where it is read by blocks of so many bytes.
fn told_by_blocks(alloc: Global, log: &[u8], block: u32) -> Result<Standing, Fail> {
    let mut end = WholeEnd::new(alloc, 0, log.len() as u64, block);
    for _ in 0..100usize {
        match end.standing() {
            Standing::Wants { at, count } => end.fill(alloc, part_of(log, at, count)?)?,
            told => return Ok(told),
        }
    }
    Err("the log doesn't end".into())
}

/// Whether this is told of the log's end by blocks of one byte, and by large ones.
fn is_told(alloc: Global, log: &[u8], told: Standing) -> Result<bool, Fail> {
    Ok(told_by_blocks(alloc, log, 1)? == told && told_by_blocks(alloc, log, 65_536)? == told)
}

#[test]
fn blocks_of_any_size_find_the_end_before_the_tail_and_the_damage(
    rt: HostRuntime,
) -> Result<(), Fail> {
    let alloc = rt.alloc();
    assert!(rt; is_told(alloc, &LOG, Standing::Ends { at: 52 })?);
    assert!(rt; is_told(alloc, &damaged_log(), Standing::Bad { at: 26 })?);
    Ok(())
}
