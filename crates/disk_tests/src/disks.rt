use ds_base::PageId;
use ds_disk::{Disk, MemoryDisk};
use std::alloc::Global;
use std::test::Fail;

/// An empty disk.
pub fn empty_disk(alloc: Global) -> Result<MemoryDisk, Fail> {
    Ok(MemoryDisk::new(alloc, Vec::new(alloc))?)
}

/// A disk with this page alone.
pub fn disk_with(alloc: Global, id: PageId, bytes: &[u8; 4096]) -> Result<MemoryDisk, Fail> {
    let mut disk = empty_disk(alloc)?;
    disk.write_page(id, bytes)?;
    Ok(disk)
}
