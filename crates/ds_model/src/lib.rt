//! Scripts, log records, fates and reports as plain data, and what they mean.
//!
//! The definitions stand in `specs/`, one file a subject; `docs/DEFINITIONS.md` has them in words. This crate
//! holds no code: the crates `script_text`, `log_record` and `report_text` bring its types out again.
#![tactic(auto)]

mod fate;
mod history;
mod lock;
mod log;
mod report;
mod script;

pub use ds_base::{PageId, TableId};
pub use fate::{Answer, Cycle, Fate, Reads, Refusal};
pub use history::Entry;
pub use lock::Name;
pub use log::{Body, LogRecord, RecordList, RowChange, Version};
pub use page_format::{Patch, Patches};
pub use report::{
    CauseLine, CauseLineList, EventLine, EventLineList, NameList, Report, ReportEntry,
    ReportEntryList, Told, ToldRead, ToldReads, ToldRefusal, Trace,
};
pub use script::{
    FailAt, FaultKind, Op, OpList, Part, PartList, Phase, PhaseList, Script, ScriptFault, Tran,
    TranList,
};
