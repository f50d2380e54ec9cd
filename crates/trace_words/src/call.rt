//! The words of the disk calls of a group restart.

use crate::line::Line;
use group_restart::Call;

/// The word of a call of the disk.
pub fn call_word(call: &Call) -> &'static [u8] {
    match call {
        Call::LogLength(_) => b"log-length",
        Call::ReadLog { .. } => b"log-read",
        Call::CutLog { .. } => b"log-cut",
        Call::AppendLog(_) => b"log-append",
        Call::ReadPage(_) => b"page-read",
        Call::WritePage(_) => b"page-write",
    }
}

/// The line of an event of this number that has made a call of the disk, and whether the call has failed.
pub fn call_line(place: u64, event: u64, call: &Call, failed: bool) -> Line {
    let reply: &'static [u8] = if failed { b"failed" } else { b"done" };
    Line {
        place,
        member: (event % 64) as u8,
        choice: event / 64,
        command: call_word(call),
        reply,
    }
}
