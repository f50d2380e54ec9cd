ghost use Rattle.std.specs.List.{AllByRecursion};
ghost use Rattle.ds_model.specs.RecordBytes.{IsAllowed};
ghost use Rattle.log_record.specs.declared.log.Log.{Log};

use crate::records::{Told, log, second_log};
use disk_spots::{drawn_spot_of, spot_of};
use log_record::Log;
use std::test::Fail;

fn commit(number: u128) -> (u128, u128, Told) {
    (number, number, Told::Commit)
}

/// Whether the records are found, and no other one.
fn are_found(logs: &[Log]) -> Result<bool, Fail>
    requires { AllByRecursion (λ (l : Log). AllByRecursion IsAllowed l.records) logs.now }
{
    Ok(
        spot_of(logs, 7)? == Some(second_log(30))
            && spot_of(logs, 6)?.is_none()
            && drawn_spot_of(logs, 4)? == Some(second_log(0)),
    )
}

#[test]
fn the_first_record_with_a_number_is_found(rt: HostRuntime) -> Result<(), Fail> {
    let alloc = rt.alloc();
    let first = log(alloc, 1, &[commit(3), commit(5)])?;
    let second = log(alloc, 2, &[commit(4), commit(7), commit(7), commit(9)])?;
    assert!(rt; are_found(&[first, second])?);
    Ok(())
}
