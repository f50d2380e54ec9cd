ghost use Rattle.std.specs.Prelude.{◌≡◌};

use crate::disks::{disk_with, empty_disk};
use disk_versions::{MetPages, Placing, check_range};
use ds_base::{PageId, TableId};
use ds_disk::MemoryDisk;
use redone_pages::TableRange;
use std::alloc::Global;
use std::test::Fail;

const ID: PageId = PageId { set: 3, number: 2 };

/// A disk with a page that no record made.
fn stray_disk(alloc: Global) -> Result<MemoryDisk, Fail> {
    disk_with(alloc, ID, &[1; 4096])
}

/// The table of the page.
fn its_table() -> TableId
    ensures { result ≡ 2 }
{
    match TableId::new(2) {
        Some(table) => table,
        None => unreachable!(),
    }
}

/// What is found on the disk of this table without records, where so many pages are read behind the last one.
fn found_on(alloc: Global, disk: MemoryDisk, behind: u32) -> Result<Placing, Fail> {
    let mut disk = disk;
    let table = its_table();
    let range = TableRange {
        first: table,
        last: table,
    };
    let met = MetPages::new(alloc, range);
    Ok(check_range(alloc, &mut disk, &met, false, behind)?)
}

#[test]
fn a_page_that_no_record_changed_is_named(rt: HostRuntime) -> Result<(), Fail> {
    let alloc = rt.alloc();
    let none = Placing::All { pages: 0 };
    assert!(rt; found_on(alloc, empty_disk(alloc)?, 2)? == none);
    assert!(rt; found_on(alloc, stray_disk(alloc)?, 2)? == Placing::Unplaced { id: ID });
    assert!(rt; found_on(alloc, stray_disk(alloc)?, 1)? == none);
    Ok(())
}
