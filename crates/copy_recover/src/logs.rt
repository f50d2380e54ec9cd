//! The logs of a disk, and what they ask for.

ghost use Rattle.std.specs.Prelude.{◌≡◌, ℕ, ◌+◌, ◌<◌, IfOk};
ghost use Rattle.std.specs.List.{AllByRecursion};
ghost use Rattle.ds_base.specs.declared.names.Volume.TheVariants as volume;
ghost use Rattle.ds_disk.specs.Contents.{log_of};
ghost use Rattle.ds_model.specs.RecordBytes.{IsAllowed};
ghost use Rattle.log_record.specs.Logs.{parts_in, IsLogOf};
ghost use Rattle.log_trans.specs.Damage.{log_damage};
ghost use Rattle.restart_plan.specs.Plans.{plan_of};
ghost use Rattle.table_copy.specs.Looking.{Looks};
ghost use Rattle.table_copy.specs.declared.fault.CopyFault.TheVariants as fault;
ghost use Rattle.copy_recover.specs.Recovering.{AreLogsOf};
ghost use Rattle.copy_recover.specs.Reading.{IsUnread, PlansBy};

use ds_base::{MemberId, Volume};
use ds_disk::Disk;
use log_record::Log;
use log_trans::find_log_damage;
use log_volume::{LogFault, open_log};
use restart_plan::{Logs, Plan, plan_of};
use std::alloc::Global;
use table_copy::CopyFault;

fn damaged(member: MemberId, at: u64) -> CopyFault
    ensures { result ≡ fault.Damaged (volume.Log member) at }
{
    CopyFault::Damaged {
        volume: Volume::Log(member),
        at,
    }
}

fn read_log<D: Disk>(alloc: Global, disk: &mut D, member: MemberId) -> Result<Log, CopyFault>
    ensures reads { Looks (D.contents disk.old) (D.contents disk.new) (D.faults disk.old) (D.faults disk.new) (λ log c. (log.member ≡ member) × IsLogOf (log_of c.logs member) log) (λ v at c. IsUnread c member v at) result }
    ensures allowed { IfOk result (λ log. AllByRecursion IsAllowed log.records) }
{
    match open_log(alloc, disk, member) {
        Ok(log) => Ok(log),
        Err(LogFault::Failed) => Err(CopyFault::Disk),
        Err(LogFault::Damaged { at }) => Err(damaged(member, at)),
        Err(LogFault::NoMemory) => Err(CopyFault::NoMemory),
    }
}

// The member behind so many others.
fn member_behind(n: u64) -> MemberId
    requires { n < 32 }
    ensures { result ≡ n + 1 }
{
    let Some(member) = MemberId::new(n + 1) else {
        unreachable!()
    };
    member
}

/// The logs of all members, in their order.
pub fn read_logs<D: Disk>(alloc: Global, disk: &mut D) -> Result<Logs, CopyFault>
    ensures { Looks (D.contents disk.old) (D.contents disk.new) (D.faults disk.old) (D.faults disk.new) (λ logs c. AreLogsOf 1 c.logs logs) (λ v at c. (member : ℕ) × IsUnread c member v at) result }
{
    let mut logs = Logs::new(alloc);
    for n in 0..32u64 {
        let log = read_log(alloc, disk, member_behind(n))?;
        logs.add(log)?;
    }
    Ok(logs)
}

/// What the logs ask for, where no number of them can't stand there.
pub fn plan_for(alloc: Global, logs: &Logs) -> Result<Plan, CopyFault>
    ensures { PlansBy logs.now result }
{
    if let Some(found) = find_log_damage(alloc, logs.as_slice())? {
        return Err(damaged(found.member, found.at));
    }
    Ok(plan_of(alloc, logs)?)
}
