//! The first record of the logs of a disk that doesn't fit those before it, by ranges of numbers: for each all logs are read by
//! blocks, and the transactions and the drawn numbers in it are asked alone.

ghost use Rattle.std.specs.Prelude.{◌≡◌, ◌≤◌, ◌<◌, ◌^◌, length, IfOk};
ghost use Rattle.disk_walk.specs.Reading.{Reads};
ghost use Rattle.disk_walk.specs.One.{OfRecords};
ghost use Rattle.disk_walk.specs.Whole.{OfWholeLogs};
ghost use Rattle.fitting_records.specs.Ranging.{spot_at, IsRangedFrom, IsRangedBy, IsSearched};
ghost use Rattle.fitting_records.specs.Telling.{AreFitTold};

use crate::blocks::block_of;
use crate::ranged::{NumberRange, Place, RangeSeen, sooner};
use disk_spots::Spot;
use disk_walk::next_of_log;
use ds_base::{MemberId, NoMemory};
use ds_disk::{Disk, DiskError};
use log_head::{Head, whole_laws};
use sound_disk::log_laws;
use std::alloc::Global;

// How many numbers a range has.
const WIDTH: u128 = 65_536;

fn spot_at(place: Option<Place>) -> Option<Spot>
    ensures { result ≡ spot_at place }
{
    match place {
        None => None,
        Some(place) => Some(Spot::Log {
            member: place.member,
            at: place.at,
        }),
    }
}

// Takes the records of the member's log up to this byte.
fn take_log<D: Disk>(
    alloc: Global,
    disk: &mut D,
    member: MemberId,
    end: u64,
    seen: &mut RangeSeen,
    block: &mut [u8],
) -> Result<(), DiskError>
    requires some { 1 ≤ length block.old }
    requires fits { length block.old < 2 ^ 32 }
    ensures { Reads (D.contents disk.old) (D.contents disk.new) (D.faults disk.old) (D.faults disk.new) (λ _ c. OfRecords member end (IsRangedFrom member seen.old seen.new) c) result }
{
    let mut head = Head::new(alloc, 0, end);
    for _ in 0..u64::MAX {
        let at = head.at();
        match next_of_log(alloc, disk, member, &mut head, block)? {
            None => return Ok(()),
            Some(it) => seen.take(alloc, member, at, &it)?,
        }
    }
    // No disk has so many records.
    Err(DiskError::NoMemory)
}

// What the records of all logs say of the numbers of the range.
fn take_logs<D: Disk>(
    alloc: Global,
    disk: &mut D,
    ends: &[u64],
    range: NumberRange,
    block: &mut [u8],
) -> Result<RangeSeen, DiskError>
    requires ends { length ends.now ≡ 32 }
    requires some { 1 ≤ length block.old }
    requires fits { length block.old < 2 ^ 32 }
    ensures { Reads (D.contents disk.old) (D.contents disk.new) (D.faults disk.old) (D.faults disk.new) (λ seen c. OfWholeLogs ends.now (IsRangedBy range seen) c) result }
{
    whole_laws();
    log_laws();
    let mut seen = RangeSeen::new(alloc, range);
    for index in 0..32usize {
        let Some(member) = MemberId::new(index as u64 + 1) else {
            unreachable!()
        };
        take_log(alloc, disk, member, ends[index], &mut seen, block)?;
        seen.leave(alloc);
    }
    Ok(seen)
}

// The range from this number on. No number of a record is so great that there is none.
fn range_at(from: u128) -> Result<NumberRange, NoMemory>
    ensures { IfOk result (λ range. range.from ≡ from) }
{
    let to = from.checked_add(WIDTH).ok_or(NoMemory)?;
    Ok(NumberRange { from, to })
}

// The first of all logs that doesn't fit, by range after range.
fn search<D: Disk>(
    alloc: Global,
    disk: &mut D,
    ends: &[u64],
    block: &mut [u8],
) -> Result<Option<Place>, DiskError>
    requires ends { length ends.now ≡ 32 }
    requires some { 1 ≤ length block.old }
    requires fits { length block.old < 2 ^ 32 }
    ensures { Reads (D.contents disk.old) (D.contents disk.new) (D.faults disk.old) (D.faults disk.new) (λ found c. OfWholeLogs ends.now (IsSearched found) c) result }
{
    let mut from = 0;
    let mut first = None;
    for _ in 0..u64::MAX {
        let range = range_at(from)?;
        let seen = take_logs(alloc, disk, ends, range, block)?;
        first = sooner(first, seen.first);
        match seen.next {
            None => return Ok(first),
            Some(next) => from = next,
        }
    }
    // No disk has so many records.
    Err(DiskError::NoMemory)
}

/// The first record that doesn't fit those before it, by the order of the logs, and in each by the order of its records, of logs
/// whose whole records end at these bytes.
///
/// What is held is of as many numbers as a range has, and open beside. All logs are read once for each range in which a number
/// stands.
pub fn find_first_unfit<D: Disk>(
    alloc: Global,
    disk: &mut D,
    ends: &[u64],
) -> Result<Option<Spot>, DiskError>
    requires { length ends.now ≡ 32 }
    ensures { Reads (D.contents disk.old) (D.contents disk.new) (D.faults disk.old) (D.faults disk.new) (λ found c. OfWholeLogs ends.now (AreFitTold found) c) result }
{
    let mut block = block_of(alloc)?;
    let first = search(alloc, disk, ends, &mut block)?;
    Ok(spot_at(first))
}
