//! The agent of a transaction.
ghost use Rattle.std.specs.Prelude.{◌≡◌, true, IfOk, IsOk, OnOk, OnErr};
ghost use Rattle.tran_core.specs.Wants.{said};
ghost use Rattle.tran_core.specs.States.{opened, want_of, after_done};
ghost use Rattle.tran_core.specs.Stages.{locks_space, reads_page};
ghost use Rattle.tran_core.specs.Pages.{after_met, takes_memory};

use crate::course::Course;
use crate::stage::{Stage, Step};
use crate::{Met, Reads, Want};
use ds_base::{NoMemory, Volume};
use ds_model::Tran;
use std::alloc::Global;
use std::marker::Model;

/// One transaction, from its first operation to its end.
#[derive(Drop)]
pub struct Agent {
    course: Course,
}

impl Model for Agent {
    ghost use Rattle.tran_core.specs.States.{State};

    ghost Value = { State };

    ghost use Rattle.tran_core.specs.Courses.{state_of, CanUndo};

    ghost view = { λ a. state_of a.course };

    ghost invariant = { λ a. CanUndo a.course };
}

// Whether the lock of a table space is wanted.
fn locks_space(stage: &Stage) -> bool
    ensures { result ≡ locks_space stage.now }
{
    matches!(
        stage,
        Stage::Work {
            step: Step::Space,
            ..
        }
    )
}

// Whether a page is wanted.
fn reads_page(stage: &Stage) -> bool
    ensures { result ≡ reads_page stage.now }
{
    matches!(
        stage,
        Stage::Work {
            step: Step::Read { .. },
            ..
        }
    )
}

impl Agent {
    /// Begins a transaction.
    pub fn new(alloc: Global, tran: Tran) -> Result<Agent, NoMemory>
        ensures begins { IfOk result (λ agent. agent ≡ opened tran.ops) }
        ensures answers { IsOk result }
    {
        Ok(Agent {
            course: Course::new(alloc, tran.ops.into_vec()),
        })
    }

    /// What the transaction wants next.
    pub fn want(&self) -> Want<'_>
        ensures { said result ≡ want_of self.now }
    {
        self.course.want()
    }

    /// Goes on, now that what was wanted is done, read or refused. An answer that doesn't fit the want changes nothing.
    ///
    /// Where memory is wanting nothing changes either: the transaction can then still be refused.
    pub fn met(&mut self, alloc: Global, answer: &Met) -> Result<(), NoMemory>
        ensures ok { OnOk result (self.new ≡ after_met self.old answer.now) }
        ensures err { OnErr result (self.new ≡ self.old) }
        ensures memory { OnErr result (takes_memory self.old answer.now ≡ true) }
    {
        match answer {
            Met::Done => self.done(),
            Met::Page(page) => {
                if reads_page(&self.course.stage) {
                    self.course.make_room()?;
                }
                self.course.page_met(alloc, page)
            }
            Met::Refused(_) => {
                self.course.refuse();
                Ok(())
            }
        }
    }

    fn done(&mut self) -> Result<(), NoMemory>
        ensures ok { OnOk result (self.new ≡ after_done self.old) }
        ensures err { OnErr result (self.new ≡ self.old) }
        ensures memory { OnErr result (locks_space self.old.stage ≡ true) }
    {
        if locks_space(&self.course.stage) {
            self.course.make_room()?;
        }
        self.course.done();
        Ok(())
    }

    /// The first byte that can't stand in its page, as the volume and the byte's offset there.
    ///
    /// Once there is one, the agent is of no more use.
    pub fn damage(&self) -> Option<(Volume, u64)>
        ensures { result ≡ self.now.damage }
    {
        self.course.damage
    }

    /// What the transaction has read, in the order of its operations.
    pub fn into_reads(self) -> Reads
        ensures { result ≡ self.reads }
    {
        Reads::from_vec(self.course.reads)
    }
}
