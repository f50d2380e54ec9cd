//! What is done to a disk on an administrator's order, outside of any run: whether it is sound is told, a table is copied, and a table is
//! recovered.
#![tactic(auto)]

mod checks;
mod copies;
mod numbers;
mod recoveries;
mod restarts;
mod texts;

pub use checks::{Checked, check};
pub use copies::{Copied, copy};
pub use recoveries::recover_table;
pub use space_check::Breach;
pub use table_copy::CopyFault;
pub use texts::{put_breach, put_image, put_recovered, put_sound};
