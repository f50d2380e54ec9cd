//! What a sound report promises. The function does nothing: it is called where its facts are needed.

ghost use Rattle.report_check.specs.Laws.{EachStandsOnce, TellsSoundHistory, TellsSoundAlone};

/// In a sound report each transaction of the script stands once and no other, and it tells a sound history: one thread that runs
/// the committed transactions in the printed order from the opening rows gives every printed read, and exactly the rows that the
/// logs stand for. What needs no logs promises the same history.
pub fn soundness_laws()
    ensures once { EachStandsOnce }
    ensures history { TellsSoundHistory }
    ensures alone { TellsSoundAlone }
{}
