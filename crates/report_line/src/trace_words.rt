//! The words of events.

ghost use Rattle.std.specs.Prelude.{◌≡◌};
ghost use Rattle.report_line.specs.Lines as spec;

use crate::words::has_word;

const COMMANDS: &[u8] =
    b"none fail obtain grant release purge retained-at read write unregister test castout-read castout-done next-changed lose rebuilt ask take answer answers wait unwait waits end raise flag set-status status claim unclaim phase-done draw draw-undo page-read page-write log-append log-length log-read log-cut";

const REPLIES: &[u8] =
    b"none done failed no-memory granted retained records-full contention moved record found no-data cache-full lost written valid invalid taken not-changed locked not-held page query gone cells pairs raised not-raised down up restarting not-lost claimed drawn stale lrsn-end";

/// Whether a word is what an event asks of the facility or the disk, or `none` or `fail`.
#[tactic(auto, unfolding(crate::specs::Lines::is_command, crate::specs::Lines::command_words, crate::specs::Reading::words_of))]
pub fn is_command(word: &[u8]) -> bool
    ensures { result ≡ spec.is_command word.now }
{
    has_word(COMMANDS, word)
}

/// Whether a word is a reply of the facility or the disk, or `none`.
#[tactic(auto, unfolding(crate::specs::Lines::is_reply, crate::specs::Lines::reply_words, crate::specs::Reading::words_of))]
pub fn is_reply(word: &[u8]) -> bool
    ensures { result ≡ spec.is_reply word.now }
{
    has_word(REPLIES, word)
}
