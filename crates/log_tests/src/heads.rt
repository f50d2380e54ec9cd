ghost use Rattle.std.specs.Prelude.{◌≤◌};

use crate::parts::part_of;
use ds_base::MemberId;
use ds_model::LogRecord;
use log_heads::{Heads, Taken};
use log_record::is_drawn;
use std::alloc::Global;
use std::test::Fail;

/// Commits of transactions 1 and 3 by records 2 and 7, and the end of the first. The last is of version 2, the others of version 1.
const FIRST: [u8; 74] = [
    0, 0, 0, 0x16, 4, 1, 0, 0, 0, 0, 0, 2, 0, 0, 0, 0, 0, 1, 0, 0, 0, 0x16, 0, 0, 0, 0x16, 5, 1, 0,
    0, 0, 0, 0, 2, 0, 0, 0, 0, 0, 1, 0, 0, 0, 0x16, 0, 0, 0, 0x1e, 4, 2, 0, 0, 0, 0, 0, 0, 0, 0, 0,
    7, 0, 0, 0, 0, 0, 0, 0, 0, 0, 3, 0, 0, 0, 0x1e,
];

/// Commits of transactions 5 and 6 by records 2 and 6, and a checkpoint between them. The first is of version 1, the others of version 2.
const THIRD: [u8; 90] = [
    0, 0, 0, 0x16, 4, 1, 0, 0, 0, 0, 0, 2, 0, 0, 0, 0, 0, 5, 0, 0, 0, 0x16, 0, 0, 0, 0x26, 6, 2, 0,
    0, 0, 0, 0, 0, 0, 0, 0, 5, 0, 0, 0, 0, 0, 0, 0, 0, 0, 0, 0, 0, 0, 0, 0, 0, 0, 0x16, 0, 0, 0,
    0x26, 0, 0, 0, 0x1e, 4, 2, 0, 0, 0, 0, 0, 0, 0, 0, 0, 6, 0, 0, 0, 0, 0, 0, 0, 0, 0, 6, 0, 0, 0,
    0x1e,
];

fn bytes_of(member: MemberId) -> &'static [u8] {
    match member.number() {
        1 => &FIRST,
        3 => &THIRD,
        _ => &[],
    }
}

/// Passes the record, if it changes a page or commits, and its transaction is the next of these.
fn is_next(trans: &mut &[u128], it: &LogRecord) -> bool {
    if !is_drawn(&it.body) {
        return true;
    }
    match trans.split_first() {
        Some((first, rest)) => {
            *trans = rest;
            *first == it.tran.number()
        }
        None => false,
    }
}

/// Whether the records that change pages or commit are taken by such blocks, and in the order of these transactions.
fn are_taken(alloc: Global, block: u32, trans: &[u128]) -> Result<bool, Fail>
    requires { 1 ≤ block }
{
    let mut lengths = [0u64; 32];
    lengths[0] = FIRST.len() as u64;
    lengths[2] = THIRD.len() as u64;
    let mut heads = Heads::new(alloc, &[0u64; 32], &lengths, block)?;
    let mut rest = trans;
    for _ in 0..400usize {
        match heads.take() {
            Taken::Record { it, .. } => {
                if !is_next(&mut rest, &it) {
                    return Ok(false);
                }
            }
            Taken::Wants { member, at, count } => {
                heads.fill(alloc, member, part_of(bytes_of(member), at, count)?)?;
            }
            Taken::Bad { .. } => return Ok(false),
            Taken::End => return Ok(rest.is_empty()),
        }
    }
    Err("the logs don't end".into())
}

#[test]
fn blocks_of_any_size_give_the_merged_records(rt: HostRuntime) -> Result<(), Fail> {
    let alloc = rt.alloc();
    assert!(rt; are_taken(alloc, 1, &[1, 5, 6, 3])?);
    assert!(rt; are_taken(alloc, 65_536, &[1, 5, 6, 3])?);
    Ok(())
}
