ghost use Rattle.settled_changes.specs.Spots.{NumbersTell};

/// Where too few numbers are left above the greatest one, its first record is the spot of the sixth clause of a sound disk. The
/// function does nothing: it is called where its fact is needed.
pub fn number_laws()
    ensures { NumbersTell }
{}
