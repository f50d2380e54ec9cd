//! Where the seventh clause of a sound disk doesn't hold, by reading each log record by record: once, and twice more if it has a
//! Checkpoint.

ghost use Rattle.std.specs.Prelude.{◌≡◌, ◌≤◌, ◌<◌, ◌^◌, length, IfOk};
ghost use Rattle.ds_disk.specs.Pages.{page_at};
ghost use Rattle.disk_walk.specs.Reading.{Reads};
ghost use Rattle.disk_walk.specs.One.{OfRecords};
ghost use Rattle.kept_checkpoints.specs.Recheck.{begun};
ghost use Rattle.kept_pages.specs.Exact.{IsScan, IsRechecked, AreNeedsJudged, IsLogTold};
ghost use Rattle.kept_pages.specs.Unkept.{page_spot, IsKeptTold};

use crate::spot::page_spot;
use crate::unmet::judge_more;
use disk_spots::Spot;
use disk_walk::next_of_log;
use ds_base::{MemberId, NoMemory, PageId};
use ds_disk::{Disk, DiskError};
use kept_checkpoints::{LogScan, Recheck, needs_laws, recheck_laws};
use log_head::{Head, whole_laws};
use page_format::Page;
use sound_disk::log_laws;
use std::alloc::Global;

// How many bytes of a log are read at most by one call of the disk.
const BLOCK: usize = 65_536;

/// What is told of one log.
#[derive(Clone, Copy, Debug, PartialEq, Eq)]
pub enum LogTold {
    /// All offsets fit; this is the first page so far that doesn't meet a need.
    Fits { page: Option<PageId> },
    /// The Checkpoint that begins at this byte has an offset that may not stand there.
    Bad { at: u64 },
}

// What the first reading of the member's log up to this byte finds.
fn scan_log<D: Disk>(
    alloc: Global,
    disk: &mut D,
    member: MemberId,
    end: u64,
    block: &mut [u8],
) -> Result<LogScan, DiskError>
    requires some { 1 ≤ length block.old }
    requires fits { length block.old < 2 ^ 32 }
    ensures { Reads (D.contents disk.old) (D.contents disk.new) (D.faults disk.old) (D.faults disk.new) (λ s c. OfRecords member end (IsScan s) c) result }
{
    let mut head = Head::new(alloc, 0, end);
    let mut scan = LogScan::new(alloc);
    for _ in 0..u64::MAX {
        let at = head.at();
        match next_of_log(alloc, disk, member, &mut head, block)? {
            None => return Ok(scan),
            Some(it) => scan.enter(alloc, at, &it)?,
        }
    }
    // No disk has so many records.
    Err(DiskError::NoMemory)
}

// Where the first Checkpoint of the log begins whose offset may not stand there.
fn recheck_log<D: Disk>(
    alloc: Global,
    disk: &mut D,
    member: MemberId,
    end: u64,
    again: &mut Recheck,
    block: &mut [u8],
) -> Result<Option<u64>, DiskError>
    requires some { 1 ≤ length block.old }
    requires fits { length block.old < 2 ^ 32 }
    ensures { Reads (D.contents disk.old) (D.contents disk.new) (D.faults disk.old) (D.faults disk.new) (λ bad c. OfRecords member end (IsRechecked again.old again.new bad) c) result }
{
    let mut head = Head::new(alloc, 0, end);
    for _ in 0..u64::MAX {
        let at = head.at();
        match next_of_log(alloc, disk, member, &mut head, block)? {
            None => return Ok(None),
            Some(it) => {
                again.enter(at, &it)?;
                if !again.fits(&it) {
                    return Ok(Some(at));
                }
            }
        }
    }
    // No disk has so many records.
    Err(DiskError::NoMemory)
}

// The first page that doesn't meet a need so far, with those of the records of the log that a restart doesn't read again.
fn judge_log<D: Disk>(
    alloc: Global,
    disk: &mut D,
    member: MemberId,
    end: u64,
    again: &Recheck,
    first: Option<PageId>,
    block: &mut [u8],
) -> Result<Option<PageId>, DiskError>
    requires some { 1 ≤ length block.old }
    requires fits { length block.old < 2 ^ 32 }
    ensures { Reads (D.contents disk.old) (D.contents disk.new) (D.faults disk.old) (D.faults disk.new) (λ found c. OfRecords member end (AreNeedsJudged (page_at c.pages) again.now first found) c) result }
{
    let mut page = Page::zero(alloc)?;
    let mut found = first;
    let mut head = Head::new(alloc, 0, end);
    for _ in 0..u64::MAX {
        let at = head.at();
        match next_of_log(alloc, disk, member, &mut head, block)? {
            None => return Ok(found),
            Some(it) => {
                let needs = again.needs(alloc, at, &it)?;
                let now = judge_more(disk, &mut page, found, needs.as_slice())?;
                found = now;
            }
        }
    }
    // No disk has so many records.
    Err(DiskError::NoMemory)
}

// What is told of the member's log, whose whole records end at this byte, where this was the first page so far that doesn't meet a
// need.
fn check_log<D: Disk>(
    alloc: Global,
    disk: &mut D,
    member: MemberId,
    end: u64,
    first: Option<PageId>,
    block: &mut [u8],
) -> Result<LogTold, DiskError>
    requires some { 1 ≤ length block.old }
    requires fits { length block.old < 2 ^ 32 }
    ensures { Reads (D.contents disk.old) (D.contents disk.new) (D.faults disk.old) (D.faults disk.new) (λ told c. OfRecords member end (IsLogTold (page_at c.pages) first told) c) result }
{
    recheck_laws();
    let scan = scan_log(alloc, disk, member, end, block)?;
    let mut again = Recheck::new(alloc, scan);
    match recheck_log(alloc, disk, member, end, &mut again, block)? {
        Some(at) => Ok(LogTold::Bad { at }),
        None => {
            let page = judge_log(alloc, disk, member, end, &again, first, block)?;
            Ok(LogTold::Fits { page })
        }
    }
}

fn block_of(alloc: Global) -> Result<Vec<u8>, NoMemory>
    ensures some { IfOk result (λ block. 1 ≤ length block.items) }
    ensures fits { IfOk result (λ block. length block.items < 2 ^ 32) }
{
    Ok(vec![in alloc; 0u8; BLOCK]?)
}

fn check_logs<D: Disk>(
    alloc: Global,
    disk: &mut D,
    ends: &[u64],
    block: &mut [u8],
) -> Result<Option<Spot>, DiskError>
    requires ends { length ends.now ≡ 32 }
    requires some { 1 ≤ length block.old }
    requires fits { length block.old < 2 ^ 32 }
    ensures { Reads (D.contents disk.old) (D.contents disk.new) (D.faults disk.old) (D.faults disk.new) (λ found c. IsKeptTold ends.now found c) result }
{
    whole_laws();
    log_laws();
    needs_laws();
    let mut first = None;
    for index in 0..32usize {
        let Some(member) = MemberId::new(index as u64 + 1) else {
            unreachable!()
        };
        match check_log(alloc, disk, member, ends[index], first, block)? {
            LogTold::Bad { at } => return Ok(Some(Spot::Log { member, at })),
            LogTold::Fits { page } => first = page,
        }
    }
    Ok(page_spot(first))
}

/// The first Checkpoint of the logs whose offset may not stand there, or else the first page of the disk that lacks what stands
/// before an offset, or has a change there of a transaction that is open; of logs whose whole records end at these bytes, and of
/// which the second clause holds.
///
/// The logs are read by blocks, and for each record that a restart doesn't read again the pages that it changes are read. Beside
/// this it holds the offsets of one log's Checkpoints, and the numbers of its open row changes.
pub fn find_first_unkept<D: Disk>(
    alloc: Global,
    disk: &mut D,
    ends: &[u64],
) -> Result<Option<Spot>, DiskError>
    requires { length ends.now ≡ 32 }
    ensures { Reads (D.contents disk.old) (D.contents disk.new) (D.faults disk.old) (D.faults disk.new) (λ found c. IsKeptTold ends.now found c) result }
{
    let mut block = block_of(alloc)?;
    check_logs(alloc, disk, ends, &mut block)
}
