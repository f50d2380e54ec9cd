//! The log of a member, read from a disk from its last checkpoint on.
//!
//! Up to some byte the log is known to be whole records, as it is at the end of a group restart, which cuts what follows
//! them; 0 says that nothing is known. The last checkpoint of these records is looked for backwards from there, by blocks,
//! and the log is then read forward from it: what stands before isn't read at all. Where no record is a checkpoint, or the
//! last one names another byte than its own, or nothing is known, the log is read from its first byte. So is one that is no
//! longer than a block.
//!
//! The search doesn't begin at the end of the log: what an append has left there that was cut short may look like a
//! record, and like a checkpoint too.
//!
//! A reader says which call of the disk it needs, lends the block into which bytes are read, and takes the reply, as one
//! that reads forward alone does.
#![tactic(auto)]

mod ends;
mod laws;
mod reader;

pub use ends::KnownEnds;
pub use laws::reader_laws;
pub use log_reader::{BLOCK, LogCall, LogRead, LogReply, place_in};
pub use log_record::Log;
pub use reader::CheckpointReader;
