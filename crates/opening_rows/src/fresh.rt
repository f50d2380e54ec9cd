//! What is kept of the logs of a disk none of which had a record at the opening.

ghost use Rattle.std.specs.Prelude.{◌≡◌, ◌<◌, ◌≤◌, ◌^◌, ◌∷◌, ◌++◌, [], length, OnOk, Decides};
ghost use Rattle.std.specs.List.{AllByRecursion};
ghost use Rattle.report_check.specs.Records.{records_of};
ghost use Rattle.opening_rows.specs.Reading.{HasDamage, ReadsBy};
ghost use Rattle.opening_rows.specs.Fresh.{tails_of, AreReadSo, AddsLog};

use crate::fault::LogsFault;
use crate::keeps::Keeps;
use crate::logs::{MEMBERS, member_behind};
use crate::reading::{LogRead, read_log};
use ds_base::{MemberId, NoMemory, Sequence};
use ds_disk::Disk;
use log_record::Log;
use std::alloc::Global;

// More records than any log has: no commit counts as new then, and none is noted.
const NONE_NEW: usize = usize::MAX;

/// Whether no log had a record at the opening.
pub fn had_none(had: &[usize]) -> bool
    ensures { Decides result (AllByRecursion (λ n. n ≡ 0) had.now) }
{
    had.iter().all(|count| *count == 0)
}

// Puts what was read of one log more.
fn put(logs: &mut Vec<Log>, member: MemberId, read: LogRead) -> Result<(), NoMemory>
    ensures records { OnOk result (records_of logs.new.items ≡ records_of logs.old.items ++ read.taken.records.items ∷ []) }
    ensures tails { OnOk result (tails_of logs.new.items ≡ tails_of logs.old.items ++ read.tail ∷ []) }
{
    let LogRead { taken, tail } = read;
    logs.push(Log {
        member,
        records: Sequence::from_vec(taken.records),
        length: 0,
        tail,
    })?;
    Ok(())
}

// Reads the log of the member behind so many others.
fn read_next<D: Disk>(
    alloc: Global,
    disk: &mut D,
    n: usize,
    logs: &mut Vec<Log>,
    block: &mut [u8],
) -> Result<(), LogsFault>
    requires member { n < 32 }
    requires some { 1 ≤ length block.old }
    requires fits { length block.old < 2 ^ 32 }
    ensures { ReadsBy (D.contents disk.old) (D.contents disk.new) (D.faults disk.old) (D.faults disk.new)
        (λ _ c. AddsLog n logs.old.items logs.new.items c) HasDamage result }
{
    let member = member_behind(n);
    let each = Keeps::Each;
    let read = read_log(alloc, disk, member, &each, NONE_NEW, block)?;
    put(logs, member, read)?;
    Ok(())
}

/// The logs of all members in their order, without the records that belong to no transaction.
pub fn read_trans<D: Disk>(
    alloc: Global,
    disk: &mut D,
    block: &mut [u8],
) -> Result<Vec<Log>, LogsFault>
    requires some { 1 ≤ length block.old }
    requires fits { length block.old < 2 ^ 32 }
    ensures { ReadsBy (D.contents disk.old) (D.contents disk.new) (D.faults disk.old) (D.faults disk.new)
        (λ logs c. AreReadSo c.logs logs.items) HasDamage result }
{
    let mut logs = Vec::new(alloc);
    for n in 0..MEMBERS {
        read_next(alloc, disk, n, &mut logs, block)?;
    }
    Ok(logs)
}
