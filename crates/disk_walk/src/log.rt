//! The records of one log of a disk, one after the other.

ghost use Rattle.std.specs.Prelude.{◌≡◌, ◌≤◌, ◌<◌, ◌^◌, length, IfOk, IfSome};
ghost use Rattle.ds_disk.specs.Contents.{log_of};
ghost use Rattle.log_head.specs.Heads.{IsOf};
ghost use Rattle.disk_heads.specs.Records.{IsSound};
ghost use Rattle.disk_walk.specs.Reading.{Reads};
ghost use Rattle.disk_walk.specs.One.{left_by, IsNextOf};

use disk_heads::{LogFault, next_record};
use ds_base::MemberId;
use ds_disk::{Disk, DiskError};
use ds_model::LogRecord;
use log_head::{Head, whole_laws};
use std::alloc::Global;

// What was read of a log as what is left of it: behind damage no whole record is.
fn left_by(next: Result<Option<LogRecord>, LogFault>) -> Result<Option<LogRecord>, DiskError>
    ensures { result ≡ left_by next }
{
    match next {
        Ok(next) => Ok(next),
        Err(LogFault::Failed) => Err(DiskError::Failed),
        Err(LogFault::Damaged { .. }) => Ok(None),
        Err(LogFault::NoMemory) => Err(DiskError::NoMemory),
    }
}

/// The next record of the member's log, or nothing where no whole record is left.
pub fn next_of_log<D: Disk>(
    alloc: Global,
    disk: &mut D,
    member: MemberId,
    head: &mut Head,
    block: &mut [u8],
) -> Result<Option<LogRecord>, DiskError>
    requires some { 1 ≤ length block.old }
    requires fits { length block.old < 2 ^ 32 }
    requires sound { IsSound head.old }
    ensures sound { IfOk result (λ next. IfSome next (λ r. IsSound head.new)) }
    ensures next { Reads (D.contents disk.old) (D.contents disk.new) (D.faults disk.old) (D.faults disk.new) (λ next c. IsOf (log_of c.logs member) head.old → IsNextOf (log_of c.logs member) head.old head.new next) result }
{
    whole_laws();
    left_by(next_record(alloc, disk, member, head, block))
}
