ghost use Rattle.disk_logs.specs.Broken.{BrokenArentWhole};

use log_record::reading_laws;

/// Logs of which one breaks off aren't whole logs.
pub fn broken_laws()
    ensures { BrokenArentWhole }
{
    reading_laws();
}
