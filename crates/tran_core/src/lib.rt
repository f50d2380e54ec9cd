//! What transactions want and meet: a transaction in hand as a machine, its fate, and what it has read.
//!
//! An [`Agent`] does one transaction's operations in order. It touches neither locks nor pages: it says what it wants
//! next, and is told how that was met. The locks are those of a data sharing group (Josten, Mohan, Narang and Teng,
//! IBM Systems Journal 36(2), 1997): a table space before a row, and all of them until the transaction ends.
#![tactic(auto)]

mod agent;
mod asks;
mod course;
mod laws;
mod lookup;
mod outcome;
mod pages;
mod rows;
mod stage;
mod steps;
mod want;

pub use agent::Agent;
pub use ds_model::{Answer, Fate, Reads, Refusal};
pub use laws::{lock_laws, read_laws, undo_laws};
pub use rows::row_read;
pub use want::{Action, Met, Want};
