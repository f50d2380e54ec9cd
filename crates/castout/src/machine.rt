ghost use Rattle.std.specs.Prelude.{◌≡◌, not};
ghost use Rattle.castout.specs.Steps.{goes_on, step_after, page_of};
ghost use Rattle.castout.specs.declared.machine.CastStep.TheVariants as steps;

use cache_structure::{CastReply, DoneReply};
use ds_base::PageId;
use std::marker::Model;

/// What a castout does next.
#[derive(Clone, Copy, Debug, PartialEq, Eq)]
pub enum CastStep {
    /// Takes the castout lock of the page, and reads its bytes from the cache structure into a private buffer.
    Read(PageId),
    /// Writes the buffer to disk.
    Write(PageId),
    /// Frees the castout lock.
    Done(PageId),
}

/// The answer to a step.
#[derive(Clone, Copy, Debug, PartialEq, Eq)]
pub enum CastAnswer {
    /// The cache structure's answer to the read.
    Cast(CastReply),
    /// The disk has the page.
    Written,
    /// The cache structure's answer to a castout that is done, also where that took the place of the disk write.
    Done(DoneReply),
}

/// The castout of a page by a member.
///
/// A page goes from the cache structure to disk through a member's private buffer, under a castout lock. Where
/// the lock was lost with the structure, the castout is done in place of its disk write. The source is Josten,
/// Mohan, Narang and Teng, "DB2's use of the coupling facility for data sharing", IBM Systems Journal 36(2),
/// 1997.
#[derive(Drop)]
pub struct Castout {
    step: CastStep,
}

impl Model for Castout {
    ghost use Rattle.castout.specs.declared.machine.CastStep.{CastStep};

    ghost Value = { CastStep };

    ghost view = { λ c. c.step };
}

impl Castout {
    /// A castout that has done nothing yet.
    pub fn new(id: PageId) -> Castout
        ensures { result ≡ steps.Read id }
    {
        Castout {
            step: CastStep::Read(id),
        }
    }

    /// The step to be done next.
    pub fn next(&self) -> CastStep
        ensures { result ≡ self.now }
    {
        self.step
    }

    /// Takes the answer to a step, and answers whether the castout has ended.
    pub fn take(&mut self, answer: &CastAnswer) -> bool
        ensures ended { result ≡ not (goes_on answer.now) }
        ensures step { self.new ≡ step_after self.old answer.now }
    {
        let id = self.page();
        match answer {
            CastAnswer::Cast(CastReply::Taken) => {
                self.step = CastStep::Write(id);
                false
            }
            CastAnswer::Written => {
                self.step = CastStep::Done(id);
                false
            }
            _ => true,
        }
    }

    // The page that is cast out.
    fn page(&self) -> PageId
        ensures { result ≡ page_of self.now }
    {
        match self.step {
            CastStep::Read(id) | CastStep::Write(id) | CastStep::Done(id) => id,
        }
    }
}
