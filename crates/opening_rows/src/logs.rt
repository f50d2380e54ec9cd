ghost use Rattle.std.specs.Prelude.{◌≡◌, ◌+◌, ◌++◌, ◌∷◌, [], ◌<◌, OnOk};
ghost use Rattle.ds_disk.specs.Contents.{log_of};
ghost use Rattle.log_record.specs.Logs.{IsLogOf};
ghost use Rattle.opening_rows.specs.Reading.{Reads, AreLogsOf};

use crate::fault::LogsFault;
use ds_base::{MemberId, NoMemory};
use ds_disk::Disk;
use log_volume::{Log, LogFault, open_log};
use std::alloc::Global;

/// The most members of a group, each with a log.
pub const MEMBERS: usize = 32;

/// The member behind so many others.
pub fn member_behind(n: usize) -> MemberId
    requires { n < 32 }
    ensures { result ≡ n + 1 }
{
    match MemberId::new(n as u64 + 1) {
        Some(member) => member,
        None => unreachable!(),
    }
}

fn put(logs: &mut Vec<Log>, log: Log) -> Result<(), NoMemory>
    ensures { OnOk result (logs.new.items ≡ logs.old.items ++ log ∷ []) }
{
    logs.push(log)?;
    Ok(())
}

// The log of a member.
fn read_log<D: Disk>(alloc: Global, disk: &mut D, member: MemberId) -> Result<Log, LogsFault>
    ensures { Reads (D.contents disk.old) (D.contents disk.new) (D.faults disk.old) (D.faults disk.new) (λ log c. IsLogOf (log_of c.logs member) log) result }
{
    match open_log(alloc, disk, member) {
        Ok(log) => Ok(log),
        Err(LogFault::Failed) => Err(LogsFault::Failed),
        Err(LogFault::Damaged { at }) => Err(LogsFault::Damaged { member, at }),
        Err(LogFault::NoMemory) => Err(LogsFault::NoMemory),
    }
}

/// The logs of all members in their order, each with its whole records and how many bytes follow them.
pub fn read_logs<D: Disk>(alloc: Global, disk: &mut D) -> Result<Vec<Log>, LogsFault>
    ensures { Reads (D.contents disk.old) (D.contents disk.new) (D.faults disk.old) (D.faults disk.new) (λ logs c. AreLogsOf c.logs logs.items) result }
{
    let mut logs = Vec::new(alloc);
    for n in 0..MEMBERS {
        let log = read_log(alloc, disk, member_behind(n))?;
        put(&mut logs, log)?;
    }
    Ok(logs)
}
