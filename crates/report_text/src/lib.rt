//! A report as text: what its lines are, one spelling for each report, and the reading of it.
#![tactic(auto)]

mod draft;
mod error;
mod read;
mod reads;
mod report;
mod trace;

pub use ds_model::{
    CauseLine, CauseLineList, EventLine, EventLineList, Name, NameList, Report, ReportEntry,
    ReportEntryList, Told, ToldRead, ToldReads, ToldRefusal, Trace,
};
pub use error::ReportError;
pub use read::read_report;
pub use report::write_report;
