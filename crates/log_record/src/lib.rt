//! The bytes of log records.
//!
//! A record is its length (4 bytes), its kind (1), the version (1), its number, its transaction's first number, its body,
//! and the length again (4). A number has 10 bytes in version 2, which is written, and 6 in version 1; both versions are
//! read, in any order in one log. The kinds are 1, a changed row; 2, a compensation; 3, changed pages; 4, a commit;
//! 5, the end of a transaction; 6, a checkpoint; and 7, the end of a restart. Numbers are big-endian.
//!
//! The body of a changed row is the table (1), the key (8), the page (4) and the slot (2), and then the row before and
//! after: 1 and 0 where there was none, or 2, the count of the value's bytes, and they. A compensation's has the number
//! of the record that it undoes behind this. That of changed pages is the count of its patches (1), and each is a
//! page set (2), a page (4), an offset there (2), the count of its bytes (2), and they. A checkpoint's is the offset
//! from which the log is read (8). The others have no body.
#![tactic(auto)]

mod allowed;
mod change;
mod fault;
mod field;
mod kind;
mod laws;
mod layout;
mod log;
mod patch;
mod put;
mod read;
mod size;
mod state;
mod version;
mod whole;
mod write;

pub use allowed::is_allowed;
pub use change::{compensation_of, inverse, is_drawn};
pub use ds_model::{Body, LogRecord, RecordList, RowChange, Version};
pub use fault::RecordFault;
pub use laws::{log_laws, reading_laws};
pub use log::Log;
pub use read::read_record;
pub use size::record_length;
pub use version::width_of;
pub use whole::records_in;
pub use write::{put_record, records_bytes, write_record};
