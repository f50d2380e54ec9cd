use ds_base::{Bytes, MemberId};
use ds_disk::MemoryDisk;
use std::alloc::Global;
use std::test::Fail;

/// The member whose log has bytes.
pub fn first() -> MemberId {
    MemberId::new(1).unwrap()
}

/// A disk on which the first member's log has these bytes.
pub fn disk_with(alloc: Global, bytes: &[u8]) -> Result<MemoryDisk, Fail> {
    let log = Bytes::from_vec(bytes.to_vec(alloc)?);
    let logs = vec![in alloc; (first(), log)]?;
    Ok(MemoryDisk::of(alloc, Vec::new(alloc), logs, Vec::new(alloc))?)
}
