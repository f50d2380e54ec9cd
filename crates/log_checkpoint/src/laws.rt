//! What the search comes to. The function does nothing: it is called where its facts are needed.

ghost use Rattle.log_checkpoint.specs.Laws.{StepIsOf, TellsSo, FillIsOf, WantedIsBefore, WantedIsFew};

/// Each record that is passed is the log's, and no checkpoint; and what is told is so.
pub fn search_laws()
    ensures step { StepIsOf }
    ensures told { TellsSo }
    ensures filled { FillIsOf }
    ensures before { WantedIsBefore }
    ensures few { WantedIsFew }
{
    log_head::whole_laws();
}
