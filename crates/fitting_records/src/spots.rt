//! Where in the logs of a disk a number stands, read by blocks.

ghost use Rattle.std.specs.Prelude.{◌≡◌, ◌≤◌, ◌<◌, ◌^◌, length, IfOk};
ghost use Rattle.disk_spots.specs.Spots.{has_drawn};
ghost use Rattle.disk_walk.specs.Reading.{Reads};
ghost use Rattle.disk_walk.specs.One.{OfRecords};
ghost use Rattle.disk_walk.specs.Whole.{OfWholeLogs};
ghost use Rattle.fitting_records.specs.Sought.{is_sought, IsPlaceOf, IsSpotIn};
ghost use Rattle.fitting_records.specs.Telling.{IsSpotOf, IsDrawnSpotOf};

use crate::blocks::block_of;
use disk_spots::Spot;
use disk_walk::next_of_log;
use ds_base::MemberId;
use ds_disk::{Disk, DiskError};
use ds_model::LogRecord;
use log_head::{Head, whole_laws};
use log_record::is_drawn;
use sound_disk::log_laws;
use std::alloc::Global;

fn has_drawn(it: &LogRecord, number: u128) -> bool
    ensures { result ≡ has_drawn number it.now }
{
    is_drawn(&it.body) && it.lrsn.number() == number
}

fn is_sought(it: &LogRecord, number: u128, drawn: bool) -> bool
    ensures { result ≡ is_sought drawn number it.now }
{
    if drawn {
        has_drawn(it, number)
    } else {
        it.lrsn.number() == number
    }
}

// Where the first such record begins of the member's log up to this byte.
fn place_of<D: Disk>(
    alloc: Global,
    disk: &mut D,
    member: MemberId,
    end: u64,
    number: u128,
    drawn: bool,
    block: &mut [u8],
) -> Result<Option<u64>, DiskError>
    requires some { 1 ≤ length block.old }
    requires fits { length block.old < 2 ^ 32 }
    ensures { Reads (D.contents disk.old) (D.contents disk.new) (D.faults disk.old) (D.faults disk.new) (λ found c. OfRecords member end (IsPlaceOf drawn number found) c) result }
{
    let mut head = Head::new(alloc, 0, end);
    for _ in 0..u64::MAX {
        let at = head.at();
        match next_of_log(alloc, disk, member, &mut head, block)? {
            None => return Ok(None),
            Some(it) => {
                if is_sought(&it, number, drawn) {
                    return Ok(Some(at));
                }
            }
        }
    }
    // No disk has so many records.
    Err(DiskError::NoMemory)
}

fn find_sought<D: Disk>(
    alloc: Global,
    disk: &mut D,
    ends: &[u64],
    number: u128,
    drawn: bool,
    block: &mut [u8],
) -> Result<Option<Spot>, DiskError>
    requires ends { length ends.now ≡ 32 }
    requires some { 1 ≤ length block.old }
    requires fits { length block.old < 2 ^ 32 }
    ensures { Reads (D.contents disk.old) (D.contents disk.new) (D.faults disk.old) (D.faults disk.new) (λ found c. OfWholeLogs ends.now (IsSpotIn drawn number found) c) result }
{
    whole_laws();
    log_laws();
    for index in 0..32usize {
        let Some(member) = MemberId::new(index as u64 + 1) else {
            unreachable!()
        };
        match place_of(alloc, disk, member, ends[index], number, drawn, block)? {
            Some(at) => return Ok(Some(Spot::Log { member, at })),
            None => {}
        }
    }
    Ok(None)
}

/// Where the first record with this number begins, by the order of the logs, and in each by the order of its records, of logs
/// whose whole records end at these bytes.
pub fn find_number<D: Disk>(
    alloc: Global,
    disk: &mut D,
    ends: &[u64],
    number: u128,
) -> Result<Option<Spot>, DiskError>
    requires { length ends.now ≡ 32 }
    ensures { Reads (D.contents disk.old) (D.contents disk.new) (D.faults disk.old) (D.faults disk.new) (λ found c. OfWholeLogs ends.now (IsSpotOf number found) c) result }
{
    let mut block = block_of(alloc)?;
    find_sought(alloc, disk, ends, number, false, &mut block)
}

/// The same of records for which the number was drawn. Others may repeat it.
pub fn find_drawn<D: Disk>(
    alloc: Global,
    disk: &mut D,
    ends: &[u64],
    number: u128,
) -> Result<Option<Spot>, DiskError>
    requires { length ends.now ≡ 32 }
    ensures { Reads (D.contents disk.old) (D.contents disk.new) (D.faults disk.old) (D.faults disk.new) (λ found c. OfWholeLogs ends.now (IsDrawnSpotOf number found) c) result }
{
    let mut block = block_of(alloc)?;
    find_sought(alloc, disk, ends, number, true, &mut block)
}
