//! Pages brought forward by log records: a record is applied to a page exactly where the page's number (LRSN) is lower.
//!
//! Redo of the records of a log brings back what a member, the group buffer pool or the whole group has lost (Josten,
//! Mohan, Narang and Teng, "DB2's use of the coupling facility for data sharing", IBM Systems Journal 36(2), 1997). Undo
//! writes the row before a change into its slot. Neither takes memory.
#![tactic(auto)]

mod fault;
mod forward;
mod laws;
mod pages;
mod rows;

pub use fault::FieldFault;
pub use forward::{bring_forward, bring_record};
pub use laws::forward_laws;
pub use log_record::inverse;
pub use page_chain::redo_laws;
pub use pages::{page_changed, pages_of};
pub use rows::{put_row, row_fault, undo_row};
