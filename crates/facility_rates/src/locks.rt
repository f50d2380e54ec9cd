ghost use Rattle.std.specs.Prelude.{◌≤◌};

use ds_base::{MemberId, NoMemory, TableId};
use lock_names::{Interest, Mode, Name};
use lock_structure::{LockStructure, Obtained};
use std::alloc::Global;

/// An odd number, by whose multiples keys are scattered.
const SCATTER: u64 = 0x9e37_79b9_7f4a_7c15;

const NOTHING: Interest = Interest {
    share: false,
    exclusive: false,
};

// Obtains the lock of a row and gives it up.
#[tactic(auto, unfolding(lock_structure::specs::Records::area_of))]
fn pair(locks: &mut LockStructure, member: MemberId, table: TableId, key: u64) -> u64 {
    let name = Name::Row(table, key);
    if locks.version(&name) > u64::MAX / 2 {
        return 0;
    }
    match locks.obtain(member, &name, Mode::X) {
        Obtained::Granted { .. } => {
            locks.release(member, &name, NOTHING);
            2
        }
        _ => 1,
    }
}

/// Runs so many pairs of an obtain and a release, over a lock table and room for records of this size.
pub fn run_locks(alloc: Global, entries: u32, times: u32) -> Result<u64, NoMemory>
    requires { 1 ≤ entries }
{
    let mut locks = LockStructure::new(alloc, entries, entries, 1)?;
    let member = MemberId::new(1).unwrap();
    let table = TableId::new(1).unwrap();
    let mut done = 0u64;
    // All records but one stand.
    for key in 0..entries.saturating_sub(1) {
        let name = Name::Row(table, (key as u64).wrapping_mul(SCATTER));
        stand(&mut locks, member, &name);
    }
    for turn in 0..times {
        let key = (turn as u64).wrapping_mul(SCATTER).wrapping_add(1);
        done = done.wrapping_add(pair(&mut locks, member, table, key));
    }
    Ok(done)
}

#[tactic(auto, unfolding(lock_structure::specs::Records::area_of))]
fn stand(locks: &mut LockStructure, member: MemberId, name: &Name) {
    if let Name::Row(table, key) = *name {
        let name = Name::Row(table, key);
        if locks.version(&name) < u64::MAX / 2 {
            let _ = locks.obtain(member, &name, Mode::X);
        }
    }
}
