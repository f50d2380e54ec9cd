ghost use Rattle.std.specs.Prelude.{◌≡◌, IfOk};
ghost use Rattle.restart_plan.specs.Tails.{tails_of};

use crate::queue::Queue;
use ds_base::{MemberId, NoMemory};
use log_record::Log;
use std::alloc::Global;

/// Behind so many bytes of the member's log there is no whole record.
#[derive(Clone, Copy, Debug, PartialEq, Eq)]
pub struct Tail {
    pub member: MemberId,
    pub length: u64,
}

/// The tails of the logs that have one.
pub fn tails_of(alloc: Global, logs: &[Log]) -> Result<Queue<Tail>, NoMemory>
    ensures { IfOk result (λ tails. tails ≡ tails_of logs.now) }
{
    let mut tails = Queue::new(alloc);
    for log in logs {
        if 0 < log.tail {
            tails.push(Tail {
                member: log.member,
                length: log.length,
            })?;
        }
    }
    Ok(tails)
}
