ghost use Rattle.std.specs.Prelude.{◌≡◌, IfOk};
ghost use Rattle.std.specs.FinMap as finite;
ghost use Rattle.restart_plan.specs.Values.{values, falling};

use crate::queue::Queue;
use ds_base::{Lrsn, NoMemory, Sequence};
use number_map::NumberMap;
use std::alloc::Global;

fn values<T: Drop>(alloc: Global, entries: Sequence<(Lrsn, T)>) -> Result<Queue<T>, NoMemory>
    ensures { IfOk result (λ queue. queue ≡ values entries) }
{
    let mut queue = Queue::new(alloc);
    for (_, value) in entries.into_vec() {
        queue.push(value)?;
    }
    Ok(queue)
}

/// The values of a map in falling order of their numbers.
pub fn falling<T: Drop>(alloc: Global, map: NumberMap<T>) -> Result<Queue<T>, NoMemory>
    ensures { IfOk result (λ queue. queue ≡ falling (finite.entries map)) }
{
    let mut entries = map.into_list(alloc)?.into_vec();
    entries.reverse();
    values(alloc, Sequence::from_vec(entries))
}
