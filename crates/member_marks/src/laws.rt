ghost use Rattle.member_marks.specs.Local.{ReachesOn};

/// What is reached from what is reached is reached.
pub fn reaches_on()
    ensures { ReachesOn }
{}
