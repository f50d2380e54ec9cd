//! A log of a disk that is read to its end.

ghost use Rattle.std.specs.Prelude.{◌≡◌, ◌<◌, ◌≤◌, ◌^◌, length, IfOk};
ghost use Rattle.ds_disk.specs.Contents.{log_of};
ghost use Rattle.disk_heads.specs.Records.{IsSound};
ghost use Rattle.opening_rows.specs.Reading.{HasDamage, ReadsBy};
ghost use Rattle.opening_rows.specs.Survey.{GoesOn};
ghost use Rattle.opening_rows.specs.Kept.{keeps_of};
ghost use Rattle.opening_rows.specs.LogReads.{IsReadTo, GoesTo, IsReadOf};

use crate::fault::LogsFault;
use crate::keeps::Keeps;
use crate::survey::{length_of, next_in};
use crate::taken::{Taken, nothing, take};
use ds_base::MemberId;
use ds_disk::Disk;
use log_head::{Head, whole_laws};
use std::alloc::Global;

/// What was taken of a log that was read to its end.
#[derive(Drop)]
pub struct LogRead {
    pub taken: Taken,
    /// How many bytes follow the whole records.
    pub tail: u64,
}

// Takes the next record of the member's log, and answers whether there was one.
fn take_next<D: Disk>(
    alloc: Global,
    disk: &mut D,
    member: MemberId,
    head: &mut Head,
    taken: &mut Taken,
    keeps: &Keeps,
    had: usize,
    block: &mut [u8],
) -> Result<bool, LogsFault>
    requires some { 1 ≤ length block.old }
    requires fits { length block.old < 2 ^ 32 }
    requires sound { IsSound head.old }
    ensures past { IfOk result (λ more. GoesOn head.old head.new more) }
    ensures taken { ReadsBy (D.contents disk.old) (D.contents disk.new) (D.faults disk.old) (D.faults disk.new)
        (λ more c. IsReadTo (log_of c.logs member) (keeps_of keeps.now) had head.old taken.old → GoesTo (log_of c.logs member) (keeps_of keeps.now) had head.new taken.new more)
        (λ m at c. IsReadTo (log_of c.logs member) (keeps_of keeps.now) had head.old taken.old → HasDamage m at c) result }
{
    whole_laws();
    let next = next_in(alloc, disk, member, head, block)?;
    match next {
        None => Ok(false),
        Some(it) => {
            take(taken, keeps, had, it)?;
            Ok(true)
        }
    }
}

/// Reads the log of a member, which had so many records at the opening, up to its tail, and keeps what is to be kept of its
/// records.
pub fn read_log<D: Disk>(
    alloc: Global,
    disk: &mut D,
    member: MemberId,
    keeps: &Keeps,
    had: usize,
    block: &mut [u8],
) -> Result<LogRead, LogsFault>
    requires some { 1 ≤ length block.old }
    requires fits { length block.old < 2 ^ 32 }
    ensures { ReadsBy (D.contents disk.old) (D.contents disk.new) (D.faults disk.old) (D.faults disk.new)
        (λ read c. IsReadOf (keeps_of keeps.now) had (log_of c.logs member) read)
        HasDamage result }
{
    whole_laws();
    let length = length_of(disk, member)?;
    let mut head = Head::new(alloc, 0, length);
    let mut taken = nothing(alloc);
    let mut more = true;
    while more {
        more = take_next(
            alloc, disk, member, &mut head, &mut taken, keeps, had, block,
        )?;
    }
    Ok(LogRead {
        taken,
        tail: length - head.at(),
    })
}
