ghost use Rattle.std.specs.Prelude.{◌≡◌};
ghost use Rattle.sound_disk.specs.Checkpoints.{offset_or};

use ds_model::Body;

/// The byte from which a log is read on behind such a record, where it was this one before it.
pub fn offset_or(start: u64, body: &Body) -> u64
    ensures { result ≡ offset_or start body.now }
{
    match body {
        Body::Checkpoint { offset } => *offset,
        _ => start,
    }
}
