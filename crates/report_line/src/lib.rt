//! One line of a report: what it may hold, its one spelling, and the reading of it.
//!
//! A line is judged here by itself. Where it may stand is another matter.
#![tactic(auto)]

mod laws;
mod line;
mod lock;
mod read;
mod refusal;
mod spell;
mod trace_words;
mod values;
mod words;

pub use laws::line_laws;
pub use line::ReportLine;
pub use read::read_line;
pub use spell::{
    put_cause, put_committed, put_count, put_event, put_get, put_line, put_refused, put_row,
    put_scan, put_stopped,
};
pub use words::cut;
