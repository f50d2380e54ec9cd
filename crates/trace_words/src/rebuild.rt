//! The words of what is sent in a rebuild of the lost cache.

use crate::words::command_word;
use rebuild_resources::RebuildSent;

/// The word of what was sent.
pub fn rebuild_word(sent: &RebuildSent) -> &'static [u8] {
    match sent {
        RebuildSent::None => b"none",
        RebuildSent::Command(command) => command_word(command),
        RebuildSent::LogLength(_) => b"log-length",
        RebuildSent::ReadLog { .. } => b"log-read",
        RebuildSent::ReadPage(_) => b"page-read",
        RebuildSent::WritePage(_) => b"page-write",
    }
}
