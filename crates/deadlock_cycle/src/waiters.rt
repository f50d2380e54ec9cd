//! Who waits for a transaction.
ghost use Rattle.std.specs.Prelude.{◌≡◌, ◌+◌, ℕ, ◌&&◌, ◌||◌, not, length, IfOk, OnOk, nat_le};
ghost use Rattle.list_structure.specs.declared.wait.Wait.{Wait};
ghost use Rattle.ds_base.specs.declared.names.TranId.{TranId};
ghost use Rattle.deadlock_cycle.specs.Cycles.{same_tran, waits_for};
ghost use Rattle.deadlock_cycle.specs.Waiting.{is_waiting, waiters_of, is_pair_of, pairs_left};

use ds_base::{MemberId, NoMemory, TranId};
use list_structure::Wait;
use std::alloc::Global;
use std::collections::BTreeMap;

/// Pairs of waits: of each transaction, those that wait for it.
#[derive(Drop)]
pub struct Waiters {
    lists: BTreeMap<(MemberId, u32), Vec<TranId>>,
}

impl Waiters {
    /// The pairs whose waiter has no higher number than this one.
    pub fn new(alloc: Global, waits: &[Wait], highest: u32) -> Result<Waiters, NoMemory>
        ensures { IfOk result (λ waiters. (a b : TranId) → is_waiting waiters.lists a b ≡ (waits_for waits.now a b && nat_le a.number highest)) }
    {
        let mut waiters = Waiters {
            lists: BTreeMap::new(alloc),
        };
        for wait in waits {
            if wait.waiter.number <= highest {
                waiters.add(alloc, *wait)?;
            }
        }
        Ok(waiters)
    }

    // Adds a pair.
    fn add(&mut self, alloc: Global, wait: Wait) -> Result<(), NoMemory>
        ensures { OnOk result ((a b : TranId) → is_waiting self.new.lists a b ≡ (is_waiting self.old.lists a b || is_pair_of wait a b)) }
    {
        let key = (wait.holder.member, wait.holder.number);
        let list = self.lists.entry(key)?.or_insert(Vec::new(alloc));
        list.push(wait.waiter)?;
        Ok(())
    }

    /// Takes out the pairs whose holder this is, and gives their waiters.
    pub fn take(&mut self, alloc: Global, holder: TranId) -> Vec<TranId>
        ensures given { result.items ≡ waiters_of self.old.lists holder }
        ensures taken { (a b : TranId) → is_waiting self.new.lists a b ≡ (is_waiting self.old.lists a b && not (same_tran holder b)) }
        ensures fewer { pairs_left self.new.lists + length result.items ≡ pairs_left self.old.lists }
    {
        match self.lists.remove(&(holder.member, holder.number)) {
            Some(list) => list,
            None => Vec::new(alloc),
        }
    }
}
