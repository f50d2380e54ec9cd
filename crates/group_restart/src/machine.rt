ghost use Rattle.std.specs.Prelude.{◌≡◌, ◌≤◌, [], Ok, IfOk, IsErrOf};
ghost use Rattle.ds_base.specs.Causes.{Rose};
ghost use Rattle.ds_disk.specs.declared.disk.DiskError.TheVariants.{Failed};
ghost use Rattle.restart_plan.specs.Plans as model;
ghost use Rattle.group_restart.specs.Calls.{log_call, call_of};
ghost use Rattle.group_restart.specs.Course.{IsBegun};
ghost use Rattle.group_restart.specs.Ends.{log_end};
ghost use Rattle.group_restart.specs.Steps.{Takes, Steps};
ghost use Rattle.group_restart.specs.declared.calls.State.TheVariants as state;

use crate::append::Append;
use crate::calls::{Call, State};
use crate::reply::Reply;
use crate::stage::Stage;
use ds_base::{Lrsn, MemberId, NoMemory, Sequence};
use ds_disk::{Disk, DiskError};
use log_merge::Merged;
use log_reader::{LogCall, LogReader};
use page_format::Page;
use restart_plan::{Logs, Plan, plan_of};
use std::alloc::Global;
use std::marker::Model;

/// A group restart, one call of the disk at a time.
#[derive(Drop)]
pub struct GroupRestart {
    pub(crate) stage: Stage,
    /// Of the log that is read.
    pub(crate) reader: LogReader,
    /// Those that are read, until all are.
    pub(crate) logs: Logs,
    /// What is left to be done.
    pub(crate) plan: Plan,
    /// Where in the merged records those of the page stand that is brought forward.
    pub(crate) places: Sequence<usize>,
    /// Whether pages of version 1 are written in version 2, as one of the logs that are read asks.
    pub(crate) renews: bool,
    /// The last page of the page set that is looked through for them.
    pub(crate) last: u32,
    /// The greatest number so far, once all pages are brought forward.
    pub(crate) counter: Lrsn,
    pub(crate) page: Page,
    /// What is appended next.
    pub(crate) added: Append,
}

impl Model for GroupRestart {
    ghost use Rattle.group_restart.specs.Machine.{Restart};

    ghost Value = { Restart };

    ghost view = { λ g. record { stage = g.stage; reader = g.reader; logs = g.logs; plan = g.plan; places = g.places; renews = g.renews; last = g.last; counter = g.counter; page = g.page; added = g.added } };
}

fn no_plan(alloc: Global) -> Result<Plan, NoMemory>
    ensures { IfOk result (λ plan. plan ≡ model.plan_of []) }
{
    plan_of(alloc, &Logs::new(alloc))
}

/// The merged records of no log.
#[tactic(auto, unfolding(restart_plan::specs::Plans::plan_of))]
pub fn no_records(alloc: Global) -> Result<Merged, NoMemory>
    ensures { IfOk result (λ merged. merged ≡ []) }
{
    let Plan { merged, .. } = no_plan(alloc)?;
    Ok(merged)
}

fn log_call(member: MemberId, call: LogCall) -> Call
    ensures { result ≡ log_call member call }
{
    match call {
        LogCall::Length => Call::LogLength(member),
        LogCall::Read { at, count } => Call::ReadLog { member, at, count },
    }
}

impl GroupRestart {
    /// Nothing is read yet.
    pub fn new(alloc: Global) -> Result<GroupRestart, NoMemory>
        ensures { IfOk result IsBegun }
    {
        let (Some(member), Some(counter)) = (MemberId::new(1), Lrsn::new(0)) else {
            unreachable!()
        };
        Ok(GroupRestart {
            stage: Stage::ReadLog,
            reader: LogReader::new(alloc, member)?,
            logs: Logs::new(alloc),
            plan: no_plan(alloc)?,
            places: Sequence::new(alloc),
            renews: false,
            last: 0,
            counter,
            page: Page::zero(alloc)?,
            added: Append::new(alloc),
        })
    }

    /// Where the member's log ends, whose whole records are all before it, once all is done.
    pub fn end_of(&self, member: MemberId) -> u64
        ensures { result ≡ log_end self.now member }
    {
        self.plan.ends.end_of(member)
    }

    /// The call that is made next. Once all is done, the length of a log is asked.
    pub fn call(&self) -> Call
        ensures { result ≡ call_of self.now }
    {
        match &self.stage {
            Stage::ReadLog => log_call(self.reader.member(), self.reader.next()),
            Stage::CutTail(tail) => Call::CutLog {
                member: tail.member,
                length: tail.length,
            },
            Stage::RedoRead(page) | Stage::UndoRead(page) | Stage::RenewRead(page) => {
                Call::ReadPage(*page)
            }
            Stage::RedoWrite(page) | Stage::UndoWrite(page) | Stage::RenewWrite(page) => {
                Call::WritePage(*page)
            }
            Stage::CloseAppend(member) | Stage::EndAppend(member) => Call::AppendLog(*member),
            Stage::UndoAppend { member, .. } => Call::AppendLog(*member),
            Stage::End => Call::LogLength(self.reader.member()),
        }
    }

    /// Makes the next call of the disk, and goes on from what it answered. After `Done`, `Damaged`, `Failed` and `NoMemory` the
    /// restart is given up.
    pub fn step<D: Disk>(&mut self, alloc: Global, disk: &mut D) -> Result<State, NoMemory>
        // What the call does to the disk, and what is made of its answer.
        ensures goes { Steps (record { alive = D.alive disk.old; contents = D.contents disk.old }) self.old result (record { alive = D.alive disk.new; contents = D.contents disk.new }) self.new }
        ensures later { D.faults disk.old ≤ D.faults disk.new }
        ensures failed { result ≡ Ok state.Failed → Rose (D.faults disk.old) (D.faults disk.new) }
    {
        let made = self.make_call(disk);
        self.settle(alloc, made)
    }

    fn settle(&mut self, alloc: Global, made: Result<Reply, DiskError>) -> Result<State, NoMemory>
        ensures takes { Takes self.old made result self.new }
        ensures failed { result ≡ Ok state.Failed → IsErrOf made Failed }
    {
        match made {
            Ok(reply) => self.take(alloc, reply),
            Err(DiskError::Failed) => Ok(State::Failed),
            Err(DiskError::NoMemory) => Err(NoMemory),
        }
    }
}
