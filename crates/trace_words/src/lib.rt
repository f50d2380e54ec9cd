//! The lines of a trace: each event with the words of what was sent and of the reply.
#![tactic(auto)]

mod call;
mod line;
mod rebuild;
mod restart;
mod words;

pub use call::{call_line, call_word};
pub use line::{Line, fail_line, line_of, rebuild_line, restart_line};
pub use rebuild::rebuild_word;
pub use restart::restart_word;
pub use words::{answered_word, sent_word};
