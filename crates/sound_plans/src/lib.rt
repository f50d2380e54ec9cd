//! What the plan of a group restart asks of the logs of a sound disk.
//!
//! The crate has definitions and proofs alone. Its functions do nothing: their contracts are the laws.
#![tactic(auto)]

ghost use Rattle.sound_plans.specs.Courses.{ClosingGoes, EndingGoes, PagesGo, UndoBegins, UndoGoes};
ghost use Rattle.sound_plans.specs.Ends.{PlanTakesOpens};
ghost use Rattle.sound_plans.specs.Opens.{EndsWhereNothingIsLeft, OpensTell, SomeIsUndone};
ghost use Rattle.sound_plans.specs.Plans.{ClosingsOfPlanFit, NumbersSuffice, PlanAppends, QueueOfPlanFits};
ghost use Rattle.sound_plans.specs.Queues.{ClosingsAppend, EmptyQueueSettles, QueueAppends, SettledIsDone};

/// The transactions that a restart finds open in a log have no Commit there, and what is to be undone of each is what its records
/// leave. Where that is nothing, the transaction was rolled back whole, and it has ended, as one with a Commit has.
pub fn open_laws()
    ensures tell { OpensTell }
    ensures undone { SomeIsUndone }
    ensures ended { EndsWhereNothingIsLeft }
{}

/// Closings of transactions that fit the logs are records that a restart appends, one after the other.
pub fn closing_laws()
    ensures { ClosingsAppend }
{}

/// So are the compensations of a queue that has, of each transaction, all that is to be undone, the last change first: each under
/// the next number, and behind the last one of a transaction its Ended. Where nothing is left in the queue, nothing is left to
/// be undone; and where the pages have the records of a log too, nothing before a Checkpoint needs to be read again.
pub fn queue_laws()
    ensures appends { QueueAppends }
    ensures empty { EmptyQueueSettles }
    ensures done { SettledIsDone }
{
    open_laws();
}

/// The closings and the queue of the plan of whole logs, whose records fit each other, fit them. So all that the plan closes and
/// undoes is appended, one record after the other, if there are numbers for it; and there are where numbers are left. Each
/// transaction that a log leaves open, with neither a Commit nor an Ended, is closed by the plan, or a change of it is undone.
pub fn plan_laws()
    ensures closings { ClosingsOfPlanFit }
    ensures queue { QueueOfPlanFits }
    ensures appends { PlanAppends }
    ensures numbers { NumbersSuffice }
    ensures takes { PlanTakesOpens }
{
    open_laws();
    queue_laws();
}

/// A group restart that has brought the pages forward, with a plan that fits the logs, appends just such records from then on:
/// each append of an Ended, or of a compensation, leads to logs for which what is left of the plan fits. So does that of a
/// Checkpoint, which names the end of its log, and of a RestartEnd, when nothing is to be undone any more. Of any transactions
/// each of which has an Ended, or is closed or undone by the plan, each has an Ended, or is still to be closed or undone, behind
/// each call; so all have one in the end.
pub fn course_laws()
    ensures begins { UndoBegins }
    ensures closing { ClosingGoes }
    ensures undo { UndoGoes }
    ensures pages { PagesGo }
    ensures ending { EndingGoes }
{}
