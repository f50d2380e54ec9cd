use crate::find_cycle;
use ds_base::{MemberId, TranId};
use list_structure::Wait;
use std::test::Fail;

fn tran(number: u32) -> TranId {
    let member = MemberId::new(1).unwrap();
    TranId { member, number }
}

fn wait(waiter: u32, holder: u32) -> Wait {
    Wait {
        waiter: tran(waiter),
        holder: tran(holder),
        flag: 0,
    }
}

#[test]
fn two_that_wait_for_each_other_are_a_cycle(rt: HostRuntime) -> Result<(), Fail> {
    let waits = [wait(2, 1), wait(1, 2)];
    let cycle = find_cycle(rt.alloc(), &waits, tran(2))?.ok_or("a cycle")?;
    assert!(rt; cycle.as_slice() == [tran(2), tran(1)].as_slice());
    Ok(())
}
