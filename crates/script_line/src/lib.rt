//! One line of a script: its words, and what they say.
//!
//! A line is judged here by itself, for a group with so many members. Where it may stand is another matter.
#![tactic(auto)]

mod keyword;
mod laws;
mod line;
mod operation;
mod read;
mod values;
mod words;

pub use keyword::keyword_in;
pub use laws::{canonical_text_laws, reading_laws};
pub use line::{Keyword, Line, LineError};
pub use read::line_in;
pub use words::is_skipped;
