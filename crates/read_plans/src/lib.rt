//! What the plan of what was read of the logs of a sound disk, of each from its last Checkpoint on, comes to for the logs whole.
//!
//! The crate has definitions and proofs alone. Its functions do nothing: their contracts are the laws.
#![tactic(auto)]

ghost use Rattle.read_plans.specs.Courses.{CoursesAreRead, EndedIsSettled};
ghost use Rattle.read_plans.specs.Ends.{OpensAreTaken};
ghost use Rattle.read_plans.specs.Fits.{ClosingsReadFit, EndingsReadFit, EndsAreKnown, EndsAreRead, FitsGoOn, NumberIsRead, QueueReadFits, TailsAreRead, UndoOfReadBegins};

/// A transaction no row change of which is open has a Commit, or nothing of it is left to be undone.
pub fn settled_laws()
    ensures { EndedIsSettled }
{}

/// What was read of a log of a sound disk tells the same of a transaction as all of the log; or it tells nothing of it, and the
/// transaction is settled.
pub fn read_course_laws()
    ensures { CoursesAreRead }
{
    log_record::reading_laws();
    log_head::whole_laws();
    settled_laws();
}

/// So the closings and the queue of the plan of what was read fit the logs whole; and then they fit all logs with the same records.
/// Each transaction that a log leaves open, with neither a Commit nor an Ended, is closed by that plan, or a change of it is undone;
/// or it was left out: none of its records stands behind the Checkpoint from which the log was read.
pub fn fit_laws()
    ensures closings { ClosingsReadFit }
    ensures queue { QueueReadFits }
    ensures same { FitsGoOn }
    ensures opens { OpensAreTaken }
{
    read_course_laws();
    sound_reads::read_laws();
    sound_plans::plan_laws();
}

/// That plan knows the tails of the logs, and where each of them ends; and its endings are members of logs, where the log of each
/// other member has no record, or ends with a RestartEnd already.
pub fn end_laws()
    ensures tails { TailsAreRead }
    ensures ends { EndsAreRead }
    ensures known { EndsAreKnown }
    ensures endings { EndingsReadFit }
{}

/// Its greatest number is that of the logs. So a restart that has brought the pages forward, and goes by this plan, appends from
/// then on what fits the logs whole.
pub fn begin_laws()
    ensures number { NumberIsRead }
    ensures begins { UndoOfReadBegins }
{
    fit_laws();
    sound_reads::read_laws();
    sound_plans::course_laws();
}
