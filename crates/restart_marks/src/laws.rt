ghost use Rattle.restart_marks.specs.Moves.{ReachesOn};

/// What is reached from what is reached is reached.
pub fn restart_reaches_on()
    ensures { ReachesOn }
{}
