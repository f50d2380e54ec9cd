ghost use Rattle.restart_marks.specs.Moves.{Reaches};

use crate::asking;
use crate::stage::{Ended, Stage};
use ds_base::{Lrsn, MemberId, NoMemory};
use lock_names::Name;
use plock_negotiate::Negotiation;
use restart_marks::{RestartIntent, RestartMarks};
use restart_resources::{Event, RestartOutcome, RestartPolicy};
use std::alloc::Global;

/// The restart of a member: where it stands, and what is left to do.
#[derive(Drop)]
pub struct MemberRestart {
    pub(crate) stage: Stage,
    /// The bell that is waited for, and whether that is for room in the cache.
    pub(crate) bell: Option<u64>,
    pub(crate) is_full: bool,
    pub(crate) ended: Option<Ended>,
    /// The lock that is negotiated, and the member that retains its page.
    pub(crate) negotiation: Option<Negotiation>,
    pub(crate) by: Option<MemberId>,
    /// The names of table spaces and rows that are retained, as they were listed.
    pub(crate) names: Vec<Name>,
    /// Names that are freed, where no open transaction needs them, and how many of them are done with.
    pub(crate) purges: Vec<Name>,
    pub(crate) purged: usize,
    /// The open transactions, those without changes first and then the latest first, and how many are done with.
    pub(crate) trans: Vec<Lrsn>,
    pub(crate) closed: usize,
}

impl MemberRestart {
    /// Nothing is done yet.
    pub fn new(alloc: Global) -> MemberRestart {
        MemberRestart {
            stage: Stage::ReadLog,
            bell: None,
            is_full: false,
            ended: None,
            negotiation: None,
            by: None,
            names: Vec::new(alloc),
            purges: Vec::new(alloc),
            purged: 0,
            trans: Vec::new(alloc),
            closed: 0,
        }
    }

    /// How it has ended. Then the member may come up, which is wanted next, or it is given up.
    pub fn ended(&self) -> Option<Ended> {
        self.ended
    }

    /// The bell above which it goes on, while it waits.
    pub fn waits(&self) -> Option<u64> {
        self.bell
    }

    /// Whether it waits for room in the cache.
    pub fn waits_for_room(&self) -> bool {
        self.bell.is_some() && self.is_full
    }

    /// Whether the lock of this name is claimed.
    pub fn holds(&self, marks: &RestartMarks, name: &Name) -> bool {
        match name {
            Name::Page(page) => marks.is_claimed(*page),
            Name::Space(_) | Name::Row(..) | Name::Set(_) => false,
        }
    }

    /// The transaction in hand.
    pub(crate) fn tran(&self) -> Option<Lrsn> {
        self.trans.get(self.closed).copied()
    }

    pub(crate) fn give_up(&mut self, ended: Ended) {
        self.ended = Some(ended);
    }

    // The stage is tried again when the bell has risen.
    pub(crate) fn wait(&mut self, bell: u64, is_full: bool) {
        self.bell = Some(bell);
        self.is_full = is_full;
    }
}

// What the page in hand needs before it is used.
fn fill_intent(marks: &RestartMarks) -> RestartIntent {
    let hand = marks.hand();
    if !hand.registered {
        RestartIntent::Read
    } else if !hand.filled {
        RestartIntent::ReadPage
    } else {
        RestartIntent::Test
    }
}

impl MemberRestart {
    fn purge_intent(&self) -> RestartIntent {
        match self.purges.get(self.purged) {
            Some(name) => RestartIntent::Purge { name: *name },
            None => RestartIntent::Step,
        }
    }

    fn undo_intent(&self) -> RestartIntent {
        match self.tran() {
            Some(id) => RestartIntent::Undo { id },
            None => RestartIntent::Step,
        }
    }

    fn lock_intent(&self) -> RestartIntent {
        match &self.negotiation {
            Some(negotiation) => asking::intent_of(negotiation, self.tran()),
            None => RestartIntent::Step,
        }
    }

    fn status_intent(&self) -> RestartIntent {
        match self.by {
            Some(member) => RestartIntent::Status { member },
            None => RestartIntent::Step,
        }
    }

    fn stage_intent(&self, marks: &RestartMarks) -> RestartIntent {
        match &self.stage {
            Stage::ReadLog => RestartIntent::ReadLog,
            Stage::CutTail => RestartIntent::CutTail,
            Stage::List => RestartIntent::RetainedAt,
            Stage::Rank | Stage::Recover | Stage::UndoFill => fill_intent(marks),
            Stage::RecoverWrite | Stage::UndoWrite => RestartIntent::WritePage,
            Stage::RecoverPurge => RestartIntent::PurgePage,
            Stage::SweepPurge | Stage::TranPurge => self.purge_intent(),
            Stage::EndedAppend | Stage::UndoAppend => RestartIntent::Append,
            Stage::Lock => self.lock_intent(),
            Stage::LockStatus => self.status_intent(),
            Stage::UndoDraw => self.undo_intent(),
            Stage::UndoRelease => RestartIntent::ReleasePage,
            Stage::Unregister => RestartIntent::Unregister,
            Stage::Restarted => RestartIntent::Up,
        }
    }

    #[tactic(auto, using(restart_marks::specs::Moves::on, restart_marks::specs::Moves::stays))]
    fn take_in_stage(
        &mut self,
        alloc: Global,
        event: &Event,
        outcome: &RestartOutcome<'_>,
        marks: &mut RestartMarks,
    ) -> Result<(), NoMemory>
        ensures { Reaches marks.old marks.new }
    {
        match self.stage {
            Stage::ReadLog => self.take_log(alloc, outcome, marks),
            Stage::CutTail => {
                self.take_cut(outcome);
                Ok(())
            }
            Stage::List => self.take_listed(alloc, outcome, marks),
            Stage::Rank | Stage::Recover => self.take_recovered(alloc, outcome, marks),
            Stage::RecoverWrite => {
                self.take_recovered_write(outcome);
                Ok(())
            }
            Stage::RecoverPurge => self.take_page_purged(alloc, outcome, marks),
            Stage::SweepPurge | Stage::TranPurge => {
                self.take_purged(outcome, marks);
                Ok(())
            }
            Stage::Lock | Stage::LockStatus => {
                self.take_asked(event, outcome, marks);
                Ok(())
            }
            _ => self.take_undoing(alloc, outcome, marks),
        }
    }
}

impl RestartPolicy for MemberRestart {
    fn intent(&self, marks: &RestartMarks) -> RestartIntent {
        if self.bell.is_some() {
            return RestartIntent::Step;
        }
        self.stage_intent(marks)
    }

    #[tactic(auto, using(restart_marks::specs::Moves::on, restart_marks::specs::Moves::stays))]
    fn take(
        &mut self,
        alloc: Global,
        event: &Event,
        outcome: &RestartOutcome<'_>,
        marks: &mut RestartMarks,
    ) -> Result<(), NoMemory>
        ensures { Reaches marks.old marks.new }
    {
        if self.bell.is_some() {
            self.bell = None;
            return Ok(());
        }
        match outcome {
            RestartOutcome::Failed => self.give_up(Ended::Failed),
            RestartOutcome::Damaged { volume, at } => self.give_up(Ended::Damaged {
                volume: *volume,
                at: *at,
            }),
            RestartOutcome::Lost => self.wait(event.bell, false),
            RestartOutcome::CacheFull => self.wait(event.bell, true),
            _ => return self.take_in_stage(alloc, event, outcome, marks),
        }
        Ok(())
    }
}
