//! Names, rows, and the ends that bytes come from and go to.
#![tactic(auto)]

mod bytes;
mod fault;
mod ids;
mod memory;
mod names;
mod row;
mod sequence;
mod streams;
mod value;

pub use bytes::Bytes;
pub use fault::{Failed, NoMemory};
pub use ids::{LRSN_END, LRSN_LIMIT, LRSN_WIDTH, Lrsn, MemberId, OLD_LRSN_WIDTH, TableId};
pub use memory::{MemorySink, MemorySource};
pub use names::{PageId, Place, Sizes, TranId, Volume};
pub use row::{Key, Row, RowList};
pub use sequence::Sequence;
pub use streams::{ReadSource, Sink, Source, WriteSink};
pub use value::{VALUE_LIMIT, Value};
