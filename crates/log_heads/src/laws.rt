//! What reading logs by blocks comes to. The function does nothing: it is called where its facts are needed.

ghost use Rattle.log_heads.specs.Laws.{TakenGoesOn, EndIsRead, WantsAgain, WantsNext, FillGoesOn, TakenLeaves, FillLeaves, KeptInOrder};

/// Each record that is taken is the first that is left of its log, and, where the numbers of no log fall, of all records in the
/// order of their numbers. Those of the kinds that merged logs hold are taken as they stand there. None is left at the end.
pub fn heads_laws()
    ensures taken { TakenGoesOn }
    ensures end { EndIsRead }
    ensures again { WantsAgain }
    ensures next { WantsNext }
    ensures filled { FillGoesOn }
    ensures no_more { TakenLeaves }
    ensures less { FillLeaves }
    ensures kept { KeptInOrder }
{
    log_head::whole_laws();
    log_head::head_laws();
}
