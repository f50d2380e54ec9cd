//! What passing records comes to. The function does nothing: it is called where its facts are needed.

ghost use Rattle.fitting_records.specs.Passed.{NothingIsPassed, PassingGoesOn, PassedAreTransactions};

/// Each record that may pass fits those before it, and logs of which all records were passed keep to the second clause of a sound
/// disk.
pub fn passing_laws()
    ensures none { NothingIsPassed }
    ensures one { PassingGoesOn }
    ensures all { PassedAreTransactions }
{}
