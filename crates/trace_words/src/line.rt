use crate::rebuild::rebuild_word;
use crate::restart::restart_word;
use crate::words::{answered_word, sent_word};
use rebuild_resources::{Answered, RebuildSent, Sent};
use restart_marks::RestartSent;

/// An event as a trace tells it: its place from 1, its member (0 for the group) and its choice, with the words of what was
/// sent to the facility or the disk and of the reply.
#[derive(Clone, Copy, Debug)]
pub struct Line {
    pub place: u64,
    pub member: u8,
    pub choice: u64,
    pub command: &'static [u8],
    pub reply: &'static [u8],
}

// The line of an event of this number with these words.
fn line_with(place: u64, event: u64, command: &'static [u8], reply: &'static [u8]) -> Line {
    Line {
        place,
        member: (event % 64) as u8,
        choice: event / 64,
        command,
        reply,
    }
}

/// The line of an event of this number.
pub fn line_of(place: u64, event: u64, sent: &Sent, answered: &Answered) -> Line {
    line_with(place, event, sent_word(sent), answered_word(answered))
}

/// The line of an event of a member's restart.
pub fn restart_line(place: u64, event: u64, sent: &RestartSent, answered: &Answered) -> Line {
    line_with(place, event, restart_word(sent), answered_word(answered))
}

/// The line of an event of a member's rebuild of the lost cache.
pub fn rebuild_line(place: u64, event: u64, sent: &RebuildSent, answered: &Answered) -> Line {
    line_with(place, event, rebuild_word(sent), answered_word(answered))
}

/// The line of an event in place of which its member fails.
pub fn fail_line(place: u64, event: u64) -> Line {
    line_with(place, event, b"fail", b"done")
}
