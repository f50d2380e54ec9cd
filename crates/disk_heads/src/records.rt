//! The records of one log of a disk, one after the other.

ghost use Rattle.std.specs.Prelude.{◌≡◌, ℕ, ◌<◌, ◌≤◌, ◌^◌, List, None, Some, length, IfOk, IsErrOf, OnOk};
ghost use Rattle.ds_disk.specs.Contents.{log_of};
ghost use Rattle.log_volume.specs.declared.fault.LogFault.TheVariants.{Failed, Damaged};
ghost use Rattle.log_head.specs.Heads.{standing_of, IsOf};
ghost use Rattle.disk_heads.specs.Reading.{Reads, Never, wanted_of};
ghost use Rattle.disk_heads.specs.Records.{IsSound, IsFurther, KeepsOf, HasMoved, IsPast, IsNext, IsBadAt};

use crate::blocks::read_at;
use ds_base::MemberId;
use ds_disk::Disk;
use ds_model::LogRecord;
use log_head::{Head, Standing, head_laws, whole_laws};
use log_record::reading_laws;
use log_volume::LogFault;
use std::alloc::Global;

// Which bytes are wanted, of at most so many: from where on, and how many.
fn wanted(head: &Head, block: u32) -> Option<(u64, u32)>
    ensures { result ≡ wanted_of (standing_of block head.now) }
{
    match head.standing(block) {
        Standing::Wants { at, count } => Some((at, count)),
        Standing::Ready | Standing::Bad { .. } | Standing::Ends { .. } => None,
    }
}

// Reads the bytes of the member's log that are wanted.
fn read_on<D: Disk>(
    alloc: Global,
    disk: &mut D,
    member: MemberId,
    head: &mut Head,
    at: u64,
    into: &mut [u8],
) -> Result<(), LogFault>
    requires { (block : ℕ) × (1 ≤ block) × (wanted_of (standing_of block head.old) ≡ Some (at, length into.old)) }
    ensures further { OnOk result (IsFurther head.old head.new (length into.old)) }
    ensures kept { Reads (D.contents disk.old) (D.contents disk.new) (D.faults disk.old) (D.faults disk.new) (λ _ c. KeepsOf (log_of c.logs member) head.old head.new) Never result }
{
    head_laws();
    read_at(disk, member, at, into)?;
    head.fill(alloc, into)?;
    Ok(())
}

// Reads on until no bytes are wanted.
fn fill_up<D: Disk>(
    alloc: Global,
    disk: &mut D,
    member: MemberId,
    head: &mut Head,
    block: &mut [u8],
) -> Result<(), LogFault>
    requires some { 1 ≤ length block.old }
    requires fits { length block.old < 2 ^ 32 }
    ensures full { OnOk result (wanted_of (standing_of (length block.old) head.new) ≡ None) }
    ensures further { OnOk result (HasMoved head.old head.new) }
    ensures kept { Reads (D.contents disk.old) (D.contents disk.new) (D.faults disk.old) (D.faults disk.new) (λ _ c. KeepsOf (log_of c.logs member) head.old head.new) Never result }
{
    let most = block.len() as u32;
    while let Some((at, count)) = wanted(head, most) {
        read_on(alloc, disk, member, head, at, &mut block[..count as usize])?;
    }
    Ok(())
}

// Takes the next record where no bytes are wanted.
fn take_next(head: &mut Head, block: u32) -> Result<Option<LogRecord>, LogFault>
    requires { wanted_of (standing_of block head.old) ≡ None }
    ensures moved { IfOk result (λ next. IsSound head.old → IsPast head.old head.new next) }
    ensures next { (log : List ℕ) → IsOf log head.old → IsSound head.old → IfOk result (λ next. IsNext log head.old head.new next) }
    ensures damaged { (log : List ℕ) (at : ℕ) → IsOf log head.old → IsErrOf result (Damaged at) → IsBadAt log head.old at }
    ensures never { IsErrOf result Failed → ⊥ }
{
    whole_laws();
    head_laws();
    reading_laws();
    match head.standing(block) {
        Standing::Ready => Ok(head.take()),
        Standing::Bad { at } => Err(LogFault::Damaged { at }),
        Standing::Ends { .. } => Ok(None),
        Standing::Wants { .. } => unreachable!(),
    }
}

/// Takes the next record of the member's log, which is read on by blocks of this length where none is in hand; or nothing
/// behind the last whole record.
///
/// `Damaged` names the byte of the log where a field begins that isn't allowed.
pub fn next_record<D: Disk>(
    alloc: Global,
    disk: &mut D,
    member: MemberId,
    head: &mut Head,
    block: &mut [u8],
) -> Result<Option<LogRecord>, LogFault>
    requires some { 1 ≤ length block.old }
    requires fits { length block.old < 2 ^ 32 }
    requires sound { IsSound head.old }
    ensures past { IfOk result (λ next. IsPast head.old head.new next) }
    ensures next { Reads (D.contents disk.old) (D.contents disk.new) (D.faults disk.old) (D.faults disk.new) (λ next c. IsOf (log_of c.logs member) head.old → IsNext (log_of c.logs member) head.old head.new next) (λ at c. IsOf (log_of c.logs member) head.old → IsBadAt (log_of c.logs member) head.old at) result }
{
    fill_up(alloc, disk, member, head, block)?;
    take_next(head, block.len() as u32)
}
