//! What a group restart reads of the logs of a sound disk, call by call.
//!
//! The crate has definitions and proofs alone. Its function does nothing: its contract is the laws.
#![tactic(auto)]

ghost use Rattle.restart_reads.specs.Reading.{ReadingBegins, ReadingGoes};

/// A group restart that has only begun is about to read the first log of a sound disk. Each of its calls leads to the next one, of that log or
/// of the one behind it, and leaves the disk; or it has read all logs, each whole or from a Checkpoint on as the laws of reads say, finds
/// no damage in them, and goes on by the plan of what it read.
pub fn restart_laws()
    ensures begins { ReadingBegins }
    ensures goes { ReadingGoes }
{
    log_record::reading_laws();
    log_head::whole_laws();
    log_reader::reader_laws();
    sound_disk::log_laws();
    sound_reads::kept_laws();
    sound_reads::read_laws();
}
