//! What the logs of a group say of its transactions and its numbers, for a restart.
//!
//! A transaction is open where its log has neither its Commit nor its Ended record: its row changes that no compensation
//! has undone are to be undone, from the last to the first (Josten, Mohan, Narang and Teng, "DB2's use of the coupling
//! facility for data sharing", IBM Systems Journal 36(2), 1997).
#![tactic(auto)]

mod course;
mod damage;
mod known;
mod numbers;
mod opened;

pub use damage::{Damaged, find_log_damage};
pub use numbers::{greatest_number, has_numbers};
pub use opened::{OpenTran, open_trans};
