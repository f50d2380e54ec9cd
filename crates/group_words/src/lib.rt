//! The command line as an order.
#![tactic(auto)]

mod given;
mod laws;
mod order;
mod parsed;
mod read;
mod setting;

pub use laws::size_laws;
pub use order::{Order, WordsFault};
pub use read::read_words;
