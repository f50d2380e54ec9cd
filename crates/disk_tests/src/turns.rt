ghost use Rattle.std.specs.List.{AllByRecursion};
ghost use Rattle.ds_model.specs.RecordBytes.{IsAllowed};
ghost use Rattle.log_record.specs.declared.log.Log.{Log};

use crate::records::{Told, log};
use ds_base::{Lrsn, TableId};
use log_merge::merge;
use log_record::Log;
use redone_pages::TableRange;
use row_turns::Turns;
use std::alloc::Global;
use std::test::Fail;

fn change(lrsn: u128, tran: u128, key: u64) -> (u128, u128, Told) {
    (lrsn, tran, Told::Change { key, page: 1 })
}

/// The number of the first record of the logs that is out of turn.
fn found_in(alloc: Global, logs: &[Log]) -> Result<Option<Lrsn>, Fail>
    requires { AllByRecursion (λ (l : Log). AllByRecursion IsAllowed l.records) logs.now }
{
    let merged = merge(alloc, logs)?;
    let range = TableRange {
        first: TableId::new(1).unwrap(),
        last: TableId::new(64).unwrap(),
    };
    let mut turns = Turns::new(alloc, range, false);
    for it in merged.records() {
        turns.take(it)?;
    }
    let told = turns.told(alloc)?;
    match told.out {
        None => Ok(None),
        Some(out) => Ok(Some(out.number)),
    }
}

#[test]
fn a_row_waits_for_the_commit(rt: HostRuntime) -> Result<(), Fail> {
    let alloc = rt.alloc();
    let first = log(alloc, 1, &[change(1, 1, 10), (3, 1, Told::Commit)])?;
    let second = log(alloc, 2, &[change(2, 2, 11), change(4, 2, 10)])?;
    assert!(rt; found_in(alloc, &[first, second])?.is_none());
    Ok(())
}

#[test]
fn a_row_that_another_holds_is_out_of_turn(rt: HostRuntime) -> Result<(), Fail> {
    let alloc = rt.alloc();
    let first = log(alloc, 1, &[change(1, 1, 10), change(3, 1, 11)])?;
    let later = [change(2, 2, 12), change(4, 2, 10), change(5, 2, 11)];
    let second = log(alloc, 2, &later)?;
    match found_in(alloc, &[first, second])? {
        Some(number) => assert!(rt; number.number() == 4),
        None => assert!(rt; false),
    }
    Ok(())
}
