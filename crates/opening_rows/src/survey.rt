//! The survey of a log of a disk: where its whole records end, how many they are, and which transactions are pending.

ghost use Rattle.std.specs.Prelude.{◌≡◌, ◌⊎◌, ◌+◌, ◌<◌, ◌≤◌, ◌^◌, ℕ, Bool, true, false, List, [], ◌∷◌, ◌++◌, length, IfOk, IsErrOf, OnOk};
ghost use Rattle.std.specs.BTreeSet as set;
ghost use Rattle.std.specs.Ordering.{nat_cmp};
ghost use Rattle.ds_disk.specs.Contents.{log_of};
ghost use Rattle.log_head.specs.Heads.{IsOf};
ghost use Rattle.disk_heads.specs.Records.{IsSound, IsPast, IsNext, IsBadAt};
ghost use Rattle.opening_rows.specs.Reading.{ReadsBy, number_at, BreaksAt};
ghost use Rattle.opening_rows.specs.Pending.{is_pending};
ghost use Rattle.opening_rows.specs.Survey.{IsCounted, IsPassed, GoesOn, Passes, IsSurveyed};
ghost use Rattle.opening_rows.specs.declared.fault.LogsFault.TheVariants.{Failed, Damaged};

use crate::fault::{LogsFault, fault_in};
use disk_heads::{next_record, read_length};
use ds_base::{MemberId, NoMemory};
use ds_disk::Disk;
use ds_model::{Body, LogRecord};
use log_head::{Head, whole_laws};
use std::alloc::Global;
use std::collections::BTreeSet;

/// How far a log was surveyed.
#[derive(Drop)]
struct Survey {
    head: Head,
    // The number of the last record, and 0 before the first.
    low: u128,
    count: usize,
}

/// What the survey of a log found.
#[derive(Clone, Copy, Debug, PartialEq, Eq)]
pub struct Found {
    /// How many bytes the whole records have.
    pub end: u64,
    /// How many whole records there are.
    pub count: usize,
}

// Where the number of a record begins that begins at this byte. No log is so long that a number of 64 bits doesn't hold it.
fn number_behind(at: u64) -> Result<u64, NoMemory>
    ensures { IfOk result (λ place. place ≡ at + number_at) }
{
    at.checked_add(6).ok_or(NoMemory)
}

// Adds the transaction of a row change to the pending ones, and takes out that of a Commit record.
fn note(pending: &mut BTreeSet<u128>, it: &LogRecord) -> Result<(), NoMemory>
    ensures { OnOk result ((tran : ℕ) → set.contains nat_cmp pending.new tran ≡ is_pending tran (set.contains nat_cmp pending.old tran) (it.now ∷ [])) }
{
    match it.body {
        Body::RowChange { .. } => {
            pending.insert(it.tran.number())?;
            Ok(())
        }
        Body::Commit => {
            pending.remove(&it.tran.number());
            Ok(())
        }
        _ => Ok(()),
    }
}

// Counts a record that begins at this byte, and whose number may not be lower than the one before it.
fn count_record(
    low: &mut u128,
    count: &mut usize,
    member: MemberId,
    at: u64,
    it: &LogRecord,
) -> Result<(), LogsFault>
    ensures counted { OnOk result (IsCounted low.old low.new count.old count.new it.now) }
    ensures damaged { (m k : ℕ) → IsErrOf result (Damaged m k) → (m ≡ member) × (k ≡ at + number_at) × (it.now.lrsn < low.old) }
    ensures never { IsErrOf result Failed → ⊥ }
{
    let number = it.lrsn.number();
    if number < *low {
        return Err(LogsFault::Damaged {
            member,
            at: number_behind(at)?,
        });
    }
    *low = number;
    *count = count.checked_add(1).ok_or(NoMemory)?;
    Ok(())
}

// Counts such a record, and notes whether its transaction is pending behind it.
fn pass(
    survey: &mut Survey,
    pending: &mut BTreeSet<u128>,
    member: MemberId,
    at: u64,
    it: &LogRecord,
) -> Result<(), LogsFault>
    ensures head { survey.new.head ≡ survey.old.head }
    ensures counted { OnOk result (IsCounted survey.old.low survey.new.low survey.old.count survey.new.count it.now) }
    ensures noted { OnOk result ((tran : ℕ) → set.contains nat_cmp pending.new tran ≡ is_pending tran (set.contains nat_cmp pending.old tran) (it.now ∷ [])) }
    ensures damaged { (m k : ℕ) → IsErrOf result (Damaged m k) → (m ≡ member) × (k ≡ at + number_at) × (it.now.lrsn < survey.old.low) }
    ensures never { IsErrOf result Failed → ⊥ }
{
    count_record(&mut survey.low, &mut survey.count, member, at, it)?;
    note(pending, it)?;
    Ok(())
}

/// The next record of the member's log.
pub fn next_in<D: Disk>(
    alloc: Global,
    disk: &mut D,
    member: MemberId,
    head: &mut Head,
    block: &mut [u8],
) -> Result<Option<LogRecord>, LogsFault>
    requires some { 1 ≤ length block.old }
    requires fits { length block.old < 2 ^ 32 }
    requires sound { IsSound head.old }
    ensures past { IfOk result (λ next. IsPast head.old head.new next) }
    ensures next { ReadsBy (D.contents disk.old) (D.contents disk.new) (D.faults disk.old) (D.faults disk.new) (λ next c. IsOf (log_of c.logs member) head.old → IsNext (log_of c.logs member) head.old head.new next) (λ m at c. (m ≡ member) × (IsOf (log_of c.logs member) head.old → IsBadAt (log_of c.logs member) head.old at)) result }
{
    match next_record(alloc, disk, member, head, block) {
        Ok(next) => Ok(next),
        Err(fault) => Err(fault_in(member, fault)),
    }
}

// Passes the next record, and answers whether there was one.
fn pass_one<D: Disk>(
    alloc: Global,
    disk: &mut D,
    member: MemberId,
    survey: &mut Survey,
    pending: &mut BTreeSet<u128>,
    block: &mut [u8],
) -> Result<bool, LogsFault>
    requires some { 1 ≤ length block.old }
    requires fits { length block.old < 2 ^ 32 }
    requires sound { IsSound survey.old.head }
    ensures past { IfOk result (λ more. GoesOn survey.old.head survey.new.head more) }
    ensures passed { ReadsBy (D.contents disk.old) (D.contents disk.new) (D.faults disk.old) (D.faults disk.new)
        (λ more c. (before : ℕ → Bool) → IsPassed (log_of c.logs member) survey.old.head survey.old.low survey.old.count before (set.contains nat_cmp pending.old) → Passes (log_of c.logs member) survey.new.head survey.new.low survey.new.count before (set.contains nat_cmp pending.new) more)
        (λ m at c. (before : ℕ → Bool) → IsPassed (log_of c.logs member) survey.old.head survey.old.low survey.old.count before (set.contains nat_cmp pending.old) → BreaksAt m at c) result }
{
    whole_laws();
    let at = survey.head.at();
    let next = next_in(alloc, disk, member, &mut survey.head, block)?;
    match next {
        None => Ok(false),
        Some(it) => {
            pass(survey, pending, member, at, &it)?;
            Ok(true)
        }
    }
}

/// The length of the member's log in bytes.
pub fn length_of<D: Disk>(disk: &mut D, member: MemberId) -> Result<u64, LogsFault>
    ensures { ReadsBy (D.contents disk.old) (D.contents disk.new) (D.faults disk.old) (D.faults disk.new) (λ n c. n ≡ length (log_of c.logs member)) (λ m at c. ⊥) result }
{
    match read_length(disk, member) {
        Ok(length) => Ok(length),
        Err(fault) => Err(fault_in(member, fault)),
    }
}

/// Surveys the log of a member up to its tail, and notes which transactions are pending behind its records.
pub fn survey_log<D: Disk>(
    alloc: Global,
    disk: &mut D,
    member: MemberId,
    pending: &mut BTreeSet<u128>,
    block: &mut [u8],
) -> Result<Found, LogsFault>
    requires some { 1 ≤ length block.old }
    requires fits { length block.old < 2 ^ 32 }
    ensures { ReadsBy (D.contents disk.old) (D.contents disk.new) (D.faults disk.old) (D.faults disk.new) (λ found c. IsSurveyed (log_of c.logs member) found.end found.count (set.contains nat_cmp pending.old) (set.contains nat_cmp pending.new)) BreaksAt result }
{
    whole_laws();
    let length = length_of(disk, member)?;
    let mut survey = Survey {
        head: Head::new(alloc, 0, length),
        low: 0,
        count: 0,
    };
    let mut more = true;
    while more {
        more = pass_one(alloc, disk, member, &mut survey, pending, block)?;
    }
    Ok(Found {
        end: survey.head.at(),
        count: survey.count,
    })
}
