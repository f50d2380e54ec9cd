ghost use Rattle.restart_marks.specs.Moves.{Reaches};

use crate::RestartOutcome;
use ds_base::NoMemory;
use member_intents::Event;
use restart_marks::{RestartIntent, RestartMarks};
use std::alloc::Global;

/// Decides what a restarting member wants next. Whatever it wants, the mechanism does nothing that it may not do.
pub trait RestartPolicy {
    /// What is wanted next. The end of a wait wants a `Step`.
    fn intent(&self, marks: &RestartMarks) -> RestartIntent;

    /// Goes on from what the event came to, by local moves.
    fn take(
        &mut self,
        alloc: Global,
        event: &Event,
        outcome: &RestartOutcome<'_>,
        marks: &mut RestartMarks,
    ) -> Result<(), NoMemory>
        ensures { Reaches marks.old marks.new };
}
