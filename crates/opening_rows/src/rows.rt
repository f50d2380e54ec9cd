//! The rows for which logs stand that were surveyed.

ghost use Rattle.std.specs.Prelude.{◌≡◌, ◌+◌, ◌<◌, ◌≤◌, ◌^◌, ℕ, List, length, IfOk, OnOk};
ghost use Rattle.std.specs.BTreeSet as set;
ghost use Rattle.std.specs.Ordering.{nat_cmp};
ghost use Rattle.ds_disk.specs.Contents.{log_of};
ghost use Rattle.ds_model.specs.Rows.{AreSorted};
ghost use Rattle.log_record.specs.declared.log.Log.{Log};
ghost use Rattle.log_heads.specs.Heads.{taken_of};
ghost use Rattle.log_heads.specs.Logs.{left, work_left, NoneFalls};
ghost use Rattle.log_heads.specs.declared.taken.Taken.TheVariants.{Wants};
ghost use Rattle.disk_heads.specs.Reading.{AreAt};
ghost use Rattle.report_check.specs.Records.{records_of};
ghost use Rattle.opening_rows.specs.Reading.{ReadsBy};
ghost use Rattle.opening_rows.specs.Opening.{stood_for};
ghost use Rattle.opening_rows.specs.Rows.{Stand, AreKept, Comes, IsNextOfAll, IsMade, AreSurveyedAs};

use crate::fault::{LogsFault, fault_in};
use crate::made::{Made, nothing, take_in};
use crate::surveyed::Surveyed;
use disk_heads::read_at;
use ds_base::{MemberId, RowList};
use ds_disk::Disk;
use ds_model::LogRecord;
use log_head::{head_laws, whole_laws};
use log_heads::{Heads, Taken, heads_laws};
use log_record::reading_laws;
use std::alloc::Global;
use std::collections::BTreeSet;

// Reads as many bytes of the member's log from this one on as there is room for.
fn read_in<D: Disk>(
    disk: &mut D,
    member: MemberId,
    at: u64,
    into: &mut [u8],
) -> Result<(), LogsFault>
    ensures { ReadsBy (D.contents disk.old) (D.contents disk.new) (D.faults disk.old) (D.faults disk.new) (λ _ c. AreAt (log_of c.logs member) at into.new) (λ m k c. ⊥) result }
{
    match read_at(disk, member, at, into) {
        Ok(()) => Ok(()),
        Err(fault) => Err(fault_in(member, fault)),
    }
}

// Reads the bytes of the member's log that are wanted.
fn read_on<D: Disk>(
    alloc: Global,
    disk: &mut D,
    heads: &mut Heads,
    member: MemberId,
    at: u64,
    into: &mut [u8],
) -> Result<(), LogsFault>
    requires { taken_of heads.old ≡ Wants member at (length into.old) }
    ensures less { OnOk result (work_left heads.new.heads < work_left heads.old.heads) }
    ensures block { OnOk result (heads.new.block ≡ heads.old.block) }
    ensures kept { ReadsBy (D.contents disk.old) (D.contents disk.new) (D.faults disk.old) (D.faults disk.new) (λ _ c. AreKept c.logs heads.old.heads heads.new.heads) (λ m k c. ⊥) result }
{
    heads_laws();
    read_in(disk, member, at, into)?;
    heads.fill(alloc, member, into)?;
    Ok(())
}

// Takes the next record of all logs, or says which bytes are wanted.
fn take(heads: &mut Heads) -> Taken
    ensures wants { (member at count : ℕ) → result ≡ Wants member at count → taken_of heads.new ≡ Wants member at count }
    ensures few { (member at count : ℕ) → result ≡ Wants member at count → count ≤ heads.new.block }
    ensures no_more { work_left heads.new.heads ≤ work_left heads.old.heads }
    ensures block { heads.new.block ≡ heads.old.block }
    ensures taken { (logs : List (List ℕ)) → Stand logs heads.old.heads → Stand logs heads.new.heads × Comes (left logs heads.old.heads) result (left logs heads.new.heads) }
{
    heads_laws();
    whole_laws();
    head_laws();
    reading_laws();
    heads.take()
}

// The next record of all logs.
fn next_of_all<D: Disk>(
    alloc: Global,
    disk: &mut D,
    heads: &mut Heads,
    block: &mut [u8],
) -> Result<Option<LogRecord>, LogsFault>
    requires { heads.old.block ≡ length block.old }
    ensures block { OnOk result (heads.new.block ≡ heads.old.block) }
    ensures next { ReadsBy (D.contents disk.old) (D.contents disk.new) (D.faults disk.old) (D.faults disk.new)
        (λ next c. Stand c.logs heads.old.heads → Stand c.logs heads.new.heads × IsNextOfAll (left c.logs heads.old.heads) next (left c.logs heads.new.heads))
        (λ m at c. Stand c.logs heads.old.heads → ⊥) result }
{
    let mut taken = take(heads);
    while let Taken::Wants { member, at, count } = taken {
        read_on(alloc, disk, heads, member, at, &mut block[..count as usize])?;
        taken = take(heads);
    }
    match taken {
        Taken::Record { it, .. } => Ok(Some(it)),
        Taken::Bad { member, at } => Err(LogsFault::Damaged { member, at }),
        Taken::End => Ok(None),
        Taken::Wants { .. } => unreachable!(),
    }
}

// What is made of the records that are left of the logs.
fn make_left<D: Disk>(
    alloc: Global,
    disk: &mut D,
    heads: &mut Heads,
    pending: &BTreeSet<u128>,
    committed: &BTreeSet<u128>,
    block: &mut [u8],
) -> Result<Made, LogsFault>
    requires { heads.old.block ≡ length block.old }
    ensures { ReadsBy (D.contents disk.old) (D.contents disk.new) (D.faults disk.old) (D.faults disk.new)
        (λ made c. Stand c.logs heads.old.heads → NoneFalls (left c.logs heads.old.heads) → IsMade (set.contains nat_cmp pending.now) (set.contains nat_cmp committed.now) (left c.logs heads.old.heads) made)
        (λ m at c. Stand c.logs heads.old.heads → NoneFalls (left c.logs heads.old.heads) → ⊥) result }
{
    let mut made = nothing(alloc);
    for _ in 0..u64::MAX {
        match next_of_all(alloc, disk, heads, block)? {
            None => return Ok(made),
            Some(it) => take_in(&mut made, pending, committed, &it)?,
        }
    }
    // No disk has so many records.
    Err(LogsFault::NoMemory)
}

// What is made of the logs as far as they were surveyed, where these of the pending transactions have committed.
fn make<D: Disk>(
    alloc: Global,
    disk: &mut D,
    all: &Surveyed,
    committed: &BTreeSet<u128>,
    block: &mut [u8],
) -> Result<Made, LogsFault>
    requires ends { length all.now.ends.items ≡ 32 }
    requires some { 1 ≤ length block.old }
    requires fits { length block.old < 2 ^ 32 }
    ensures { ReadsBy (D.contents disk.old) (D.contents disk.new) (D.faults disk.old) (D.faults disk.new)
        (λ made c. (logs : List Log) → AreSurveyedAs c.logs all.now.ends.items (set.contains nat_cmp all.now.pending) logs → IsMade (set.contains nat_cmp all.now.pending) (set.contains nat_cmp committed.now) (records_of logs) made)
        (λ m at c. (logs : List Log) → AreSurveyedAs c.logs all.now.ends.items (set.contains nat_cmp all.now.pending) logs → ⊥) result }
{
    whole_laws();
    let mut heads = Heads::new(alloc, &[0u64; 32], &all.ends, block.len() as u32)?;
    let made = make_left(alloc, disk, &mut heads, &all.pending, committed, block)?;
    Ok(made)
}

/// The rows that the row changes of committed transactions leave, in the order of the numbers of their records. The logs are
/// read as far as they were surveyed. Where a Commit record of a pending transaction is met, which stands before one of its
/// changes then, they are read once more: no sound disk has one.
pub fn read_rows<D: Disk>(
    alloc: Global,
    disk: &mut D,
    all: &Surveyed,
    block: &mut [u8],
) -> Result<RowList, LogsFault>
    requires ends { length all.now.ends.items ≡ 32 }
    requires some { 1 ≤ length block.old }
    requires fits { length block.old < 2 ^ 32 }
    ensures rows { ReadsBy (D.contents disk.old) (D.contents disk.new) (D.faults disk.old) (D.faults disk.new)
        (λ rows c. (logs : List Log) → AreSurveyedAs c.logs all.now.ends.items (set.contains nat_cmp all.now.pending) logs → rows ≡ stood_for logs)
        (λ m at c. (logs : List Log) → AreSurveyedAs c.logs all.now.ends.items (set.contains nat_cmp all.now.pending) logs → ⊥) result }
    ensures in_order { IfOk result AreSorted }
{
    let none = BTreeSet::new(alloc);
    let first = make(alloc, disk, all, &none, block)?;
    let Made { rows, found } = first;
    if found.is_empty() {
        return Ok(rows.into_rows(alloc)?);
    }
    drop(rows);
    let again = make(alloc, disk, all, &found, block)?;
    Ok(again.rows.into_rows(alloc)?)
}
