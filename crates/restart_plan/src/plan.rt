ghost use Rattle.std.specs.Prelude.{◌≡◌, IfOk};
ghost use Rattle.restart_plan.specs.Plans.{plan_of};

use crate::ends::Ends;
use crate::falling::falling;
use crate::greatest::{Greatest, greatest_at};
use crate::logs::Logs;
use crate::opened::{Closing, Opened, Undo, opened_of};
use crate::queue::Queue;
use crate::renewal::must_renew;
use crate::tails::{Tail, tails_of};
use ds_base::{MemberId, NoMemory};
use log_merge::{Merged, merge};
use page_records::{PageRecords, by_page};
use std::alloc::Global;

/// What a restart does, from the logs as they were read.
#[derive(Drop)]
pub struct Plan {
    /// Of each log that has one.
    pub tails: Queue<Tail>,
    /// Where each log ends without its tail.
    pub ends: Ends,
    /// The records of all logs that change pages or commit, in the order of their numbers.
    pub merged: Merged,
    /// The pages that they change.
    pub pages: Queue<PageRecords>,
    pub closings: Queue<Closing>,
    /// In falling order of the changes.
    pub undo: Queue<Undo>,
    /// The members whose log is to end with a Checkpoint and a RestartEnd.
    pub endings: Queue<MemberId>,
    /// Whether pages of version 1 are written in version 2, where the logs have no other records than these.
    pub renews: bool,
    pub greatest: Greatest,
}

/// What these logs ask for.
///
/// It takes time in the number of records times its logarithm.
#[tactic(auto, unfolding(crate::specs::Plans::plan_of))]
pub fn plan_of(alloc: Global, logs: &Logs) -> Result<Plan, NoMemory>
    ensures { IfOk result (λ plan. plan ≡ plan_of logs.now) }
{
    let logs = logs.as_slice();
    let greatest = greatest_at(logs)?;
    let tails = tails_of(alloc, logs)?;
    let ends = Ends::of(alloc, logs)?;
    let Opened {
        closings,
        undo,
        endings,
    } = opened_of(alloc, logs)?;
    let renews = must_renew(logs);
    let merged = merge(alloc, logs)?;
    let pages = by_page(alloc, merged.records())?;
    Ok(Plan {
        tails,
        ends,
        merged,
        pages: Queue::of(alloc, pages)?,
        closings,
        undo: falling(alloc, undo)?,
        endings,
        renews,
        greatest,
    })
}
