//! The list structure of the coupling facility: how the members of a group ask one another, wait for one
//! another, and know of one another.
//!
//! It holds the cells of queries about locks, the pairs of transactions that wait, the flags of a phase,
//! the status of each member, and a bell a member, which rings whenever something changed that the member may
//! wait for.
#![tactic(auto)]

mod bells;
mod cells;
mod copies;
mod flags;
mod lists;
mod pairs;
mod query;
mod standing;
mod wait;

pub use flags::Flag;
pub use lists::Lists;
pub use query::{Asker, Cell, CellAnswer, Query};
pub use standing::{ClaimReply, MemberStatus};
pub use wait::Wait;
