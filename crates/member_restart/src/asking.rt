//! The lock of the page of the next change.

ghost use Rattle.restart_marks.specs.Moves.{Reaches};

use crate::restart::MemberRestart;
use crate::stage::Stage;
use ds_base::{Lrsn, MemberId, PageId};
use list_structure::MemberStatus;
use lock_names::{Mode, Name};
use member_trans::Owner;
use page_format::Page;
use plock_negotiate::{Negotiation, Progress};
use restart_marks::{RestartIntent, RestartMarks};
use restart_resources::{Event, Intent, Outcome, RestartOutcome};

/// What a negotiation wants next for the transaction.
pub fn intent_of(negotiation: &Negotiation, tran: Option<Lrsn>) -> RestartIntent {
    let Some(id) = tran else {
        return RestartIntent::Step;
    };
    match negotiation.intent() {
        Intent::Obtain { .. } => RestartIntent::Obtain { id },
        Intent::Ask { to, .. } => RestartIntent::Ask { id, to },
        Intent::Status { member } => RestartIntent::Status { member },
        Intent::Answers { asked, .. } => RestartIntent::Answers { id, asked },
        Intent::Grant { .. } => RestartIntent::Grant { id },
        _ => RestartIntent::Step,
    }
}

/// How far the negotiation has come in an event.
#[derive(Clone, Copy, Debug, PartialEq, Eq)]
enum Asked {
    GoesOn,
    Granted,
    Refused,
}

fn asked_by(progress: &Progress) -> Asked {
    match progress {
        Progress::GoesOn => Asked::GoesOn,
        Progress::Granted => Asked::Granted,
        Progress::Conflict { .. } | Progress::Refused => Asked::Refused,
    }
}

// The page that the event has lent.
fn page_lent<'a>(outcome: &RestartOutcome<'a>) -> Option<&'a Page> {
    match outcome {
        RestartOutcome::Ready { page } => Some(*page),
        _ => None,
    }
}

// What a negotiation takes from an event. A lock that can't be had ends it.
fn outcome_for(outcome: &RestartOutcome<'_>) -> Outcome<'static> {
    match outcome {
        RestartOutcome::Granted => Outcome::Granted,
        RestartOutcome::Retained { .. } | RestartOutcome::RecordsFull => Outcome::Refused,
        RestartOutcome::Contention { share, exclusive } => Outcome::Contention {
            share: *share,
            exclusive: *exclusive,
        },
        RestartOutcome::Moved => Outcome::Moved,
        RestartOutcome::Cells { open, emptied } => Outcome::Cells {
            open: *open,
            emptied: *emptied,
        },
        RestartOutcome::Status(status) => Outcome::Status(*status),
        _ => Outcome::Stepped,
    }
}

// The member that retains the page.
fn retained_by(outcome: &RestartOutcome<'_>) -> Option<MemberId> {
    match outcome {
        RestartOutcome::Retained { by } => Some(*by),
        _ => None,
    }
}

fn advance(
    negotiation: &mut Negotiation,
    page: Option<&Page>,
    outcome: &RestartOutcome<'_>,
    event: &Event,
) -> Progress {
    let told = match page {
        Some(page) => Outcome::Valid { page },
        None => outcome_for(outcome),
    };
    negotiation.take(&told, event)
}

impl MemberRestart {
    // The transaction in hand, and the page of its next change.
    fn page_wanted(&self, marks: &RestartMarks) -> Option<(Lrsn, PageId)> {
        let id = self.tran()?;
        Some((id, marks.page_undone(id)?))
    }

    /// The page of the next change is locked next.
    pub(crate) fn begin_lock(&mut self, marks: &RestartMarks) {
        match self.page_wanted(marks) {
            Some((id, page)) => {
                let owner = Owner::Rollback(id);
                self.negotiation = Some(Negotiation::new(&owner, Name::Page(page), Mode::X));
                self.stage = Stage::Lock;
            }
            None => self.stage = Stage::Unregister,
        }
    }

    fn ask_on(&mut self, outcome: &RestartOutcome<'_>, event: &Event) -> Asked {
        match &mut self.negotiation {
            Some(negotiation) => {
                let progress = advance(negotiation, page_lent(outcome), outcome, event);
                asked_by(&progress)
            }
            None => Asked::GoesOn,
        }
    }

    // The member's bell after the last obtain.
    fn lock_bell(&self) -> u64 {
        match &self.negotiation {
            Some(negotiation) => negotiation.bell(),
            None => 0,
        }
    }

    #[tactic(auto, using(restart_marks::specs::Moves::on, restart_marks::specs::Moves::stays))]
    fn granted(&mut self, marks: &mut RestartMarks)
        ensures { Reaches marks.old marks.new }
    {
        if let Some(id) = self.tran() {
            marks.take_up_undone(id);
        }
        self.stage = Stage::UndoFill;
    }

    // The lock is tried again when the bell has risen: a restarting member frees its pages.
    fn try_again(&mut self, marks: &RestartMarks) {
        let bell = self.lock_bell();
        self.by = None;
        self.begin_lock(marks);
        self.wait(bell, false);
    }

    fn refused(&mut self, outcome: &RestartOutcome<'_>, marks: &RestartMarks) {
        self.by = retained_by(outcome);
        if self.by.is_some() {
            self.stage = Stage::LockStatus;
        } else {
            self.try_again(marks);
        }
    }

    #[tactic(auto, using(restart_marks::specs::Moves::on, restart_marks::specs::Moves::stays))]
    fn negotiated(&mut self, event: &Event, outcome: &RestartOutcome<'_>, marks: &mut RestartMarks)
        ensures { Reaches marks.old marks.new }
    {
        match self.ask_on(outcome, event) {
            Asked::GoesOn => {}
            Asked::Granted => self.granted(marks),
            Asked::Refused => self.refused(outcome, marks),
        }
    }

    // A failed member's page ends the undo.
    fn take_status(&mut self, outcome: &RestartOutcome<'_>, marks: &RestartMarks) {
        match outcome {
            RestartOutcome::Status(MemberStatus::Failed) => self.stage = Stage::Unregister,
            _ => self.try_again(marks),
        }
    }

    #[tactic(auto, using(restart_marks::specs::Moves::on, restart_marks::specs::Moves::stays))]
    pub(crate) fn take_asked(
        &mut self,
        event: &Event,
        outcome: &RestartOutcome<'_>,
        marks: &mut RestartMarks,
    )
        ensures { Reaches marks.old marks.new }
    {
        match self.stage {
            Stage::Lock => self.negotiated(event, outcome, marks),
            Stage::LockStatus => self.take_status(outcome, marks),
            _ => {}
        }
    }
}
