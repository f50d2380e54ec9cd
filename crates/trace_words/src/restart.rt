//! The words of what is sent in a member's restart.

use crate::words::command_word;
use restart_marks::RestartSent;

/// The word of what was sent.
pub fn restart_word(sent: &RestartSent) -> &'static [u8] {
    match sent {
        RestartSent::None => b"none",
        RestartSent::Command(command) => command_word(command),
        RestartSent::LogLength => b"log-length",
        RestartSent::ReadLog { .. } => b"log-read",
        RestartSent::CutLog { .. } => b"log-cut",
        RestartSent::AppendLog => b"log-append",
        RestartSent::ReadPage(_) => b"page-read",
    }
}
