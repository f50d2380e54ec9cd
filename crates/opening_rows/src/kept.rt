//! What is kept of the logs of a disk.

ghost use Rattle.std.specs.Prelude.{◌≡◌, ◌+◌, ◌<◌, ◌≤◌, ◌^◌, ◌∷◌, ◌++◌, [], List, true, length, slice_index, OnOk, Decides};
ghost use Rattle.ds_disk.specs.Contents.{log_of};
ghost use Rattle.log_record.specs.declared.log.Log.{Log as AnyLog};
ghost use Rattle.log_record.specs.Logs.{IsLogOf};
ghost use Rattle.report_check.specs.Records.{records_of};
ghost use Rattle.opening_rows.specs.Reading.{AreLogsOf, HasDamage, ReadsBy};
ghost use Rattle.opening_rows.specs.Kept.{IsKept, AreKept};
ghost use Rattle.opening_rows.specs.declared.keeps.Keeps.TheVariants as which;

use crate::fault::LogsFault;
use crate::keeps::Keeps;
use crate::logs::{MEMBERS, member_behind};
use crate::reading::{LogRead, read_log};
use ds_base::{MemberId, NoMemory, Sequence};
use ds_disk::Disk;
use ds_model::LogRecord;
use log_record::Log;
use std::alloc::Global;
use std::collections::BTreeSet;

/// What is kept of a log.
#[derive(Drop)]
pub struct Kept {
    /// The records of the transactions that have committed since the opening, in the order of the log.
    pub records: Vec<LogRecord>,
    /// How many of these the log had at the opening.
    pub before: usize,
    /// How many bytes follow the whole records of the log.
    pub tail: u64,
}

/// What is kept of all logs.
#[derive(Drop)]
pub struct KeptLogs {
    /// For each member the records of the transactions that have committed since the opening, in the order of its log.
    pub logs: Vec<Log>,
    /// How many of these its log had at the opening.
    pub had: Vec<usize>,
    /// Whether nothing follows the whole records of each log.
    pub are_whole: bool,
}

fn count_at(had: &[usize], i: usize) -> usize
    ensures { result ≡ slice_index had.now i }
{
    had.get(i).copied().unwrap_or(0)
}

// The transactions whose Commit records were met.
fn committed(read: LogRead) -> Keeps
    ensures { result ≡ which.These read.taken.commits }
{
    let LogRead { taken, .. } = read;
    Keeps::These {
        trans: taken.commits,
    }
}

fn kept_of(read: LogRead) -> Kept
    ensures records { result.records.items ≡ read.taken.records.items }
    ensures before { result.before ≡ read.taken.before }
    ensures tail { result.tail ≡ read.tail }
{
    let LogRead { taken, tail } = read;
    Kept {
        records: taken.records,
        before: taken.before,
        tail,
    }
}

// What is kept of the log of a member, which had so many records at the opening: it is read for the transactions, and once
// more for their records.
fn keep_log<D: Disk>(
    alloc: Global,
    disk: &mut D,
    member: MemberId,
    had: usize,
    block: &mut [u8],
) -> Result<Kept, LogsFault>
    requires some { 1 ≤ length block.old }
    requires fits { length block.old < 2 ^ 32 }
    ensures { ReadsBy (D.contents disk.old) (D.contents disk.new) (D.faults disk.old) (D.faults disk.new)
        (λ kept c. (log : AnyLog) → IsLogOf (log_of c.logs member) log → IsKept had log kept) HasDamage result }
{
    let none = Keeps::These {
        trans: BTreeSet::new(alloc),
    };
    let first = read_log(alloc, disk, member, &none, had, block)?;
    let commits = committed(first);
    let second = read_log(alloc, disk, member, &commits, had, block)?;
    Ok(kept_of(second))
}

// Puts what is kept of one log more.
fn put(all: &mut KeptLogs, member: MemberId, kept: Kept) -> Result<(), NoMemory>
    ensures records { OnOk result (records_of all.new.logs.items ≡ records_of all.old.logs.items ++ kept.records.items ∷ []) }
    ensures had { OnOk result (all.new.had.items ≡ all.old.had.items ++ kept.before ∷ []) }
    ensures whole { OnOk result (Decides all.new.are_whole ((all.old.are_whole ≡ true) × (kept.tail ≡ 0))) }
{
    let Kept {
        records,
        before,
        tail,
    } = kept;
    all.logs.push(Log {
        member,
        records: Sequence::from_vec(records),
        length: 0,
        tail,
    })?;
    all.had.push(before)?;
    all.are_whole = all.are_whole && tail == 0;
    Ok(())
}

// Keeps what is to be kept of the log of the member behind so many others.
fn keep_next<D: Disk>(
    alloc: Global,
    disk: &mut D,
    n: usize,
    had: &[usize],
    all: &mut KeptLogs,
    block: &mut [u8],
) -> Result<(), LogsFault>
    requires member { n < 32 }
    requires some { 1 ≤ length block.old }
    requires fits { length block.old < 2 ^ 32 }
    ensures { ReadsBy (D.contents disk.old) (D.contents disk.new) (D.faults disk.old) (D.faults disk.new)
        (λ _ c. (log : AnyLog) (logs : List AnyLog) → IsLogOf (log_of c.logs (n + 1)) log → length logs ≡ n → AreKept had.now logs all.old → AreKept had.now (logs ++ log ∷ []) all.new) HasDamage result }
{
    let member = member_behind(n);
    let kept = keep_log(alloc, disk, member, count_at(had, n), block)?;
    put(all, member, kept)?;
    Ok(())
}

/// What is kept of the logs of all members in their order, which had so many records at the opening.
pub fn keep_logs<D: Disk>(
    alloc: Global,
    disk: &mut D,
    had: &[usize],
    block: &mut [u8],
) -> Result<KeptLogs, LogsFault>
    requires some { 1 ≤ length block.old }
    requires fits { length block.old < 2 ^ 32 }
    ensures { ReadsBy (D.contents disk.old) (D.contents disk.new) (D.faults disk.old) (D.faults disk.new)
        (λ kept c. (logs : List AnyLog) → AreLogsOf c.logs logs → AreKept had.now logs kept) HasDamage result }
{
    let mut all = KeptLogs {
        logs: Vec::new(alloc),
        had: Vec::new(alloc),
        are_whole: true,
    };
    for n in 0..MEMBERS {
        keep_next(alloc, disk, n, had, &mut all, block)?;
    }
    Ok(all)
}
