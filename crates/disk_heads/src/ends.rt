//! Where the whole records of a log of a disk end.

ghost use Rattle.std.specs.Prelude.{◌≡◌, ◌≤◌, ℕ, List, Some, None, Ok, Err, length, IfOk, IsErrOf, OnOk};
ghost use Rattle.ds_disk.specs.Contents.{log_of};
ghost use Rattle.log_record.specs.Logs.{parts_in};
ghost use Rattle.log_volume.specs.declared.fault.LogFault.TheVariants.{Failed, Damaged};
ghost use Rattle.log_head.specs.Heads.{standing_of, IsOf};
ghost use Rattle.log_end.specs.Ends.{end_of, IsRead};
ghost use Rattle.disk_heads.specs.Reading.{Reads, Never, EndsIn, KeepsEnd, wanted_of};

use crate::blocks::{BLOCK, read_at, read_length};
use ds_base::MemberId;
use ds_disk::Disk;
use log_end::{Standing, WholeEnd};
use log_volume::LogFault;
use std::alloc::Global;

// Which bytes are wanted: from where on, and how many.
fn wanted(end: &WholeEnd) -> Option<(u64, u32)>
    ensures { result ≡ wanted_of (standing_of end.now.block end.now.head) }
{
    match end.standing() {
        Standing::Wants { at, count } => Some((at, count)),
        Standing::Ready | Standing::Bad { .. } | Standing::Ends { .. } => None,
    }
}

// Reads the bytes of the member's log that are wanted.
fn read_on<D: Disk>(
    alloc: Global,
    disk: &mut D,
    member: MemberId,
    end: &mut WholeEnd,
    at: u64,
    into: &mut [u8],
) -> Result<(), LogFault>
    requires { wanted_of (standing_of end.old.block end.old.head) ≡ Some (at, length into.old) }
    ensures read { OnOk result (IsRead end.old end.new (length into.old)) }
    ensures kept { Reads (D.contents disk.old) (D.contents disk.new) (D.faults disk.old) (D.faults disk.new) (λ _ c. KeepsEnd (log_of c.logs member) end.old.head end.new.head) Never result }
{
    read_at(disk, member, at, into)?;
    end.fill(alloc, into)?;
    Ok(())
}

// Reads on until no bytes are wanted.
fn read_up<D: Disk>(
    alloc: Global,
    disk: &mut D,
    member: MemberId,
    end: &mut WholeEnd,
    block: &mut [u8],
) -> Result<(), LogFault>
    requires block { end.old.block ≡ length block.old }
    requires some { 1 ≤ end.old.block }
    ensures full { OnOk result (wanted_of (standing_of end.new.block end.new.head) ≡ None) }
    ensures kept { Reads (D.contents disk.old) (D.contents disk.new) (D.faults disk.old) (D.faults disk.new) (λ _ c. KeepsEnd (log_of c.logs member) end.old.head end.new.head) Never result }
{
    while let Some((at, count)) = wanted(end) {
        read_on(alloc, disk, member, end, at, &mut block[..count as usize])?;
    }
    Ok(())
}

// What is told where no bytes are wanted.
fn told(end: &WholeEnd) -> Result<u64, LogFault>
    requires { wanted_of (standing_of end.now.block end.now.head) ≡ None }
    ensures ends { (log : List ℕ) → IsOf log end.now.head → IfOk result (λ n. end_of log end.now.head ≡ Ok n) }
    ensures damaged { (log : List ℕ) (at : ℕ) → IsOf log end.now.head → IsErrOf result (Damaged at) → end_of log end.now.head ≡ Err at }
    ensures never { IsErrOf result Failed → ⊥ }
{
    match end.standing() {
        Standing::Ends { at } => Ok(at),
        Standing::Bad { at } => Err(LogFault::Damaged { at }),
        Standing::Ready | Standing::Wants { .. } => unreachable!(),
    }
}

/// Where the whole records of the member's log end. What follows them, cut short by a stop of the system, is the tail.
///
/// `Damaged` names the byte of the log where the first field begins that isn't allowed.
pub fn find_end<D: Disk>(alloc: Global, disk: &mut D, member: MemberId) -> Result<u64, LogFault>
    ensures { Reads (D.contents disk.old) (D.contents disk.new) (D.faults disk.old) (D.faults disk.new) (λ end c. EndsIn end (parts_in (log_of c.logs member))) (λ at c. parts_in (log_of c.logs member) ≡ Err at) result }
{
    let mut block = vec![in alloc; 0u8; BLOCK]?;
    let length = read_length(disk, member)?;
    let mut end = WholeEnd::new(alloc, 0, length, BLOCK as u32);
    read_up(alloc, disk, member, &mut end, &mut block)?;
    told(&end)
}
