//! That the cause of each refusal of a run held. The functions do nothing: they are called where their facts are needed.
#![tactic(auto)]

ghost use Rattle.refusal_causes.specs.Answers.{AnswersGiven};
ghost use Rattle.refusal_causes.specs.Laws.{CausesHeld};

use cache_structure::CacheFace;
use ds_disk::Disk;
use needs_law::sends_lawfully;

/// Wherever the events of a journal lead a group that has just started, each refused transaction has a cause that held at one of them, whose
/// place is told, and each place that is told is that of such a cause.
pub fn causes_held<D: Disk, C: CacheFace, P>()
    ensures { CausesHeld P C.directory D.alive D.contents D.faults }
{
    sends_lawfully();
}

/// There each answer in a cell of a query was given at one of the events, by claims that the member that answered had before it.
pub fn answers_given<D: Disk, C: CacheFace, P>()
    ensures { AnswersGiven P C.directory D.alive D.contents D.faults }
{
    sends_lawfully();
}
