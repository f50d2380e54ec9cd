//! Copies of tables: an image of a table's pages is read from a disk and written to a sink.
#![tactic(auto)]

mod copy;
mod disk;
mod fault;
mod sink;

pub use copy::write_image;
pub use fault::CopyFault;
