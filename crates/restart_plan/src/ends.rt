ghost use Rattle.std.specs.Prelude.{◌≡◌, ◌-◌, OnOk, IfOk};
ghost use Rattle.restart_plan.specs.Ends.{ends_of, end_of, raised};

use ds_base::{MemberId, NoMemory};
use log_record::Log;
use std::alloc::Global;
use std::marker::Model;

/// How many bytes each log has without its tail, in the order of the members.
#[derive(Drop)]
pub struct Ends {
    lengths: Vec<u64>,
}

impl Model for Ends {
    ghost use Rattle.std.specs.Prelude.{ℕ, List};

    ghost Value = { List ℕ };

    ghost view = { λ e. e.lengths.items };
}

// Where the end of the member's log stands.
fn index_of(member: MemberId) -> usize
    ensures { result ≡ member - 1 }
{
    member.number() as usize - 1
}

impl Ends {
    /// Those of logs as they were read.
    pub fn of(alloc: Global, logs: &[Log]) -> Result<Ends, NoMemory>
        ensures { IfOk result (λ ends. ends ≡ ends_of logs.now) }
    {
        let mut lengths = Vec::new(alloc);
        for log in logs {
            lengths.push(log.length)?;
        }
        Ok(Ends { lengths })
    }

    /// Where the member's log ends: the next record that is appended to it begins there.
    pub fn end_of(&self, member: MemberId) -> u64
        ensures { result ≡ end_of self.now member }
    {
        match self.lengths.get(index_of(member)) {
            Some(end) => *end,
            None => 0,
        }
    }

    /// So many bytes were appended to the member's log. No log is so long that a number of 64 bits doesn't hold its length.
    pub fn raise(&mut self, member: MemberId, count: u64) -> Result<(), NoMemory>
        ensures { OnOk result (self.new ≡ raised self.old member count) }
    {
        let raised = self.end_of(member).checked_add(count).ok_or(NoMemory)?;
        if let Some(end) = self.lengths.get_mut(index_of(member)) {
            *end = raised;
        }
        Ok(())
    }
}
