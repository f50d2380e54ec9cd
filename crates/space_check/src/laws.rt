ghost use Rattle.space_check.specs.Laws.{SoundIsSound, UnsoundIsNot};

/// What is told of a disk comes exactly where it holds: one that is told to be sound, and has only zeros past the pages that are
/// read, is sound, and one that is told to be unsound isn't.
pub fn verdict_laws()
    ensures sound { SoundIsSound }
    ensures unsound { UnsoundIsNot }
{
    sound_disk::log_laws();
    disk_logs::broken_laws();
}
