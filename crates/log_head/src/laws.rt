//! What reading by blocks comes to. The functions do nothing: they are called where their facts are needed.

ghost use Rattle.log_head.specs.Laws.{RecordHasSize, RecordIsFramed, FrontDecides, RecordIsOwn, FirstIsWhole, NoneIsWhole, NothingIsShort, PartsAreWhole, PartsGoOn, PartsEnd, PartsAreBad, TakenIsFirst, RecordIsLeft, FilledIsOf, EndIsInHand, BadIsLeft};

/// The whole records of bytes are those of which the parts of a log are made. What is decided at the front of bytes stays so,
/// whatever follows.
pub fn whole_laws()
    ensures size { RecordHasSize }
    ensures framed { RecordIsFramed }
    ensures front { FrontDecides }
    ensures own { RecordIsOwn }
    ensures first { FirstIsWhole }
    ensures none { NoneIsWhole }
    ensures empty { NothingIsShort }
    ensures parts { PartsAreWhole }
    ensures goes { PartsGoOn }
    ensures ends { PartsEnd }
    ensures bad { PartsAreBad }
{}

/// A record that is taken is the first of those that are left of the log; bytes that are read on leave the same ones; where all
/// bytes are in hand, or a field isn't allowed, none is left.
pub fn head_laws()
    ensures taken { TakenIsFirst }
    ensures left { RecordIsLeft }
    ensures filled { FilledIsOf }
    ensures ended { EndIsInHand }
    ensures bad { BadIsLeft }
{}
