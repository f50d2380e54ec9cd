//! Where the whole records of logs end, which are read by blocks.

ghost use Rattle.std.specs.Prelude.{◌≡◌, ◌↔◌, ◌+◌, ◌≤◌, ◌<◌, ◌^◌, nat_lt, [], ◌∷◌, ◌++◌, length, drop, IfOk, IsTrue, OnOk};
ghost use Rattle.ds_disk.specs.Contents.{log_of};
ghost use Rattle.ds_model.specs.Logs.{IsTorn};
ghost use Rattle.disk_heads.specs.Records.{IsSound};
ghost use Rattle.disk_logs.specs.Ends.{GoesOn, IsPassed, Passes, IsCounted, IsReached, IsEnd, ended_at, AreEnds, AreOf32};
ghost use Rattle.disk_logs.specs.Looking.{Reads};

use crate::logs::zeros;
use disk_heads::{BLOCK, LogFault, next_record};
use ds_base::{MemberId, NoMemory};
use ds_disk::{Disk, DiskError};
use ds_model::LogRecord;
use log_head::{Head, whole_laws};
use log_record::reading_laws;
use std::alloc::Global;
use torn_records::is_torn;

// No record has more bytes.
const LONGEST: u64 = 16_384;

/// How far a log was passed.
#[derive(Drop)]
struct Passing {
    head: Head,
    // The number of the last record, and 0 before the first.
    low: u128,
}

/// What passing the next record of a log came to.
#[derive(Clone, Copy, Debug, PartialEq, Eq)]
pub enum Step {
    /// It was passed.
    On,
    /// No whole record is left.
    Over,
    /// The one that begins at this byte has a lower number than that before it, or a field of it isn't allowed.
    Broken { at: u64 },
}

/// How a log ends.
#[derive(Clone, Copy, Debug, PartialEq, Eq)]
pub enum LogEnd {
    /// Its whole records end at this byte.
    Whole { at: u64 },
    /// At this byte begins neither a record that may follow those before it nor the front of one.
    Broken { at: u64 },
}

/// How all logs end.
#[derive(Drop)]
pub enum Ends {
    /// Where the whole records of each end, in the order of the members.
    Whole { ends: Vec<u64> },
    /// The first that breaks off, and the byte at which it does.
    Broken { member: MemberId, at: u64 },
}

// What the next record of a log is, which begins at this byte and whose number may not be lower than this one.
fn count(low: &mut u128, at: u64, it: &LogRecord) -> Step
    ensures { IsCounted low.old low.new at it.now.lrsn result }
{
    let number = it.lrsn.number();
    if number < *low {
        return Step::Broken { at };
    }
    *low = number;
    Step::On
}

// Passes the next record of the member's log.
fn pass_one<D: Disk>(
    alloc: Global,
    disk: &mut D,
    member: MemberId,
    passing: &mut Passing,
    block: &mut [u8],
) -> Result<Step, DiskError>
    requires some { 1 ≤ length block.old }
    requires fits { length block.old < 2 ^ 32 }
    requires sound { IsSound passing.old.head }
    ensures past { IfOk result (λ step. GoesOn passing.old.head passing.new.head step) }
    ensures passed { Reads (D.contents disk.old) (D.contents disk.new) (D.faults disk.old) (D.faults disk.new) (λ step c. IsPassed (log_of c.logs member) passing.old.head passing.old.low → Passes (log_of c.logs member) passing.new.head passing.new.low step) result }
{
    reading_laws();
    let at = passing.head.at();
    match next_record(alloc, disk, member, &mut passing.head, block) {
        Ok(None) => Ok(Step::Over),
        Ok(Some(it)) => Ok(count(&mut passing.low, at, &it)),
        Err(LogFault::Damaged { .. }) => Ok(Step::Broken { at }),
        Err(LogFault::Failed) => Err(DiskError::Failed),
        Err(LogFault::NoMemory) => Err(DiskError::NoMemory),
    }
}

// Up to where the member's log is whole records whose numbers never fall: no whole record is left there, or it breaks off.
fn pass_all<D: Disk>(
    alloc: Global,
    disk: &mut D,
    member: MemberId,
    block: &mut [u8],
) -> Result<LogEnd, DiskError>
    requires some { 1 ≤ length block.old }
    requires fits { length block.old < 2 ^ 32 }
    ensures { Reads (D.contents disk.old) (D.contents disk.new) (D.faults disk.old) (D.faults disk.new) (λ end c. IsReached (log_of c.logs member) end) result }
{
    let length = disk.log_length(member)?;
    let mut passing = Passing {
        head: Head::new(alloc, 0, length),
        low: 0,
    };
    let mut step = Step::On;
    while let Step::On = step {
        step = pass_one(alloc, disk, member, &mut passing, block)?;
    }
    match step {
        Step::Broken { at } => Ok(LogEnd::Broken { at }),
        Step::Over => Ok(LogEnd::Whole {
            at: passing.head.at(),
        }),
        Step::On => unreachable!(),
    }
}

// Up to so many bytes of the member's log from this one on.
fn read_tail<D: Disk>(
    alloc: Global,
    disk: &mut D,
    member: MemberId,
    at: u64,
    count: usize,
) -> Result<Vec<u8>, DiskError>
    ensures { Reads (D.contents disk.old) (D.contents disk.new) (D.faults disk.old) (D.faults disk.new) (λ bytes c. length (log_of c.logs member) ≤ at + count → bytes.items ≡ drop at (log_of c.logs member)) result }
{
    let mut bytes = zeros(alloc, count)?;
    let count = disk.read_log(member, at, &mut bytes)?;
    bytes.truncate(count);
    Ok(bytes)
}

fn length_of<D: Disk>(disk: &mut D, member: MemberId) -> Result<u64, DiskError>
    ensures { Reads (D.contents disk.old) (D.contents disk.new) (D.faults disk.old) (D.faults disk.new) (λ n c. n ≡ length (log_of c.logs member)) result }
{
    disk.log_length(member)
}

fn is_long(tail: u64) -> bool
    ensures { result ≡ nat_lt 16384 tail }
{
    LONGEST < tail
}

// Whether the member's log has nothing behind this byte, or what a stop inside an append may leave, which is no longer than a
// record.
fn has_torn_tail<D: Disk>(
    alloc: Global,
    disk: &mut D,
    member: MemberId,
    at: u64,
) -> Result<bool, DiskError>
    ensures { Reads (D.contents disk.old) (D.contents disk.new) (D.faults disk.old) (D.faults disk.new) (λ torn c. at ≤ length (log_of c.logs member) → (IsTrue torn ↔ IsTorn (drop at (log_of c.logs member)))) result }
{
    reading_laws();
    whole_laws();
    let length = length_of(disk, member)?;
    let tail = length.saturating_sub(at);
    let long = is_long(tail);
    if long {
        return Ok(false);
    }
    let bytes = read_tail(alloc, disk, member, at, tail as usize)?;
    let torn = is_torn(alloc, &bytes)?;
    Ok(torn)
}

// How a log ends whose whole records end at this byte, where its tail is torn or isn't.
fn with_tail(at: u64, torn: bool) -> LogEnd
    ensures { result ≡ ended_at at torn }
{
    if torn {
        LogEnd::Whole { at }
    } else {
        LogEnd::Broken { at }
    }
}

// How the member's log ends.
fn end_of_log<D: Disk>(
    alloc: Global,
    disk: &mut D,
    member: MemberId,
    block: &mut [u8],
) -> Result<LogEnd, DiskError>
    requires some { 1 ≤ length block.old }
    requires fits { length block.old < 2 ^ 32 }
    ensures { Reads (D.contents disk.old) (D.contents disk.new) (D.faults disk.old) (D.faults disk.new) (λ end c. IsEnd member (log_of c.logs member) end) result }
{
    reading_laws();
    match pass_all(alloc, disk, member, block)? {
        LogEnd::Broken { at } => Ok(LogEnd::Broken { at }),
        LogEnd::Whole { at } => {
            let torn = has_torn_tail(alloc, disk, member, at)?;
            Ok(with_tail(at, torn))
        }
    }
}

fn block_of(alloc: Global) -> Result<Vec<u8>, NoMemory>
    ensures { IfOk result (λ block. length block.items ≡ 65536) }
{
    Ok(vec![in alloc; 0u8; BLOCK]?)
}

fn put(ends: &mut Vec<u64>, end: u64) -> Result<(), NoMemory>
    ensures { OnOk result (ends.new.items ≡ ends.old.items ++ end ∷ []) }
{
    ends.push(end)?;
    Ok(())
}

fn all_ends<D: Disk>(alloc: Global, disk: &mut D, block: &mut [u8]) -> Result<Ends, DiskError>
    requires { length block.old ≡ 65536 }
    ensures ends { Reads (D.contents disk.old) (D.contents disk.new) (D.faults disk.old) (D.faults disk.new) (λ found c. AreEnds c.logs found) result }
    ensures count { IfOk result AreOf32 }
{
    let mut ends = Vec::new(alloc);
    for index in 0..32u64 {
        let Some(member) = MemberId::new(index + 1) else {
            unreachable!()
        };
        match end_of_log(alloc, disk, member, block)? {
            LogEnd::Whole { at } => put(&mut ends, at)?,
            LogEnd::Broken { at } => return Ok(Ends::Broken { member, at }),
        }
    }
    Ok(Ends::Whole { ends })
}

/// Where the whole records of all logs end, by the order of the members, or where the first of them breaks off. They are read by
/// blocks, and no log is held in memory.
pub fn find_all_ends<D: Disk>(alloc: Global, disk: &mut D) -> Result<Ends, DiskError>
    ensures ends { Reads (D.contents disk.old) (D.contents disk.new) (D.faults disk.old) (D.faults disk.new) (λ found c. AreEnds c.logs found) result }
    ensures count { IfOk result AreOf32 }
{
    let mut block = block_of(alloc)?;
    all_ends(alloc, disk, &mut block)
}
