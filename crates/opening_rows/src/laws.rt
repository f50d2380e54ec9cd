//! That what is kept of logs is enough. The function does nothing: it is called where its fact is needed.

ghost use Rattle.opening_rows.specs.Judging.{KeptIsEnough};

/// The commits since the opening, and the records of their transactions, are those of the whole logs.
pub fn kept_laws()
    ensures enough { KeptIsEnough }
{}
