//! A group restart over a sound disk, call by call: it leaves a sound disk whatever its calls come to, and names no damage.
//!
//! The crate has definitions and proofs alone. Its function does nothing: its contract is the law.
#![tactic(auto)]

ghost use Rattle.sound_steps.specs.Grown.{CallGrows, HasGrownBefore};
ghost use Rattle.sound_steps.specs.Whole.{AnswerGoesOn, CallLeavesSound, CourseBegins};

/// Once the logs of a sound disk are read, by a plan that suits the disk and fits its logs, a group restart goes on with its cuts,
/// its redo, its undo, the renewal of pages and the ends of logs. Before each call the disk is sound; it is left sound whatever
/// the call comes to, also where the disk dies in it; and where it is answered, the next call follows, or all is done: no damage
/// is named. Before and behind each call the logs have the records that they had first, and then others: a Checkpoint is among these
/// only where each transaction that is to have an Ended in the end has one.
pub fn step_laws()
    ensures begins { CourseBegins }
    ensures leaves { CallLeavesSound }
    ensures answer { AnswerGoesOn }
    ensures before { HasGrownBefore }
    ensures grows { CallGrows }
{
    sound_courses::bring_laws();
    sound_courses::undo_laws();
    sound_courses::ending_laws();
    sound_restarts::renewal_laws();
    sound_appends::whole_laws();
    log_record::log_laws();
}
