ghost use Rattle.std.specs.Prelude.{◌≡◌, ℕ, ◌-◌, ◌≤◌, true, length, take, IfOk, IsErrOf};
ghost use Rattle.std.specs.List.{AllByRecursion};
ghost use Rattle.ds_disk.specs.Contents.{Becomes, Same, log_of};
ghost use Rattle.ds_model.specs.RecordBytes.{log_bytes, IsAllowed};
ghost use Rattle.log_record.specs.Logs.{parts_in};
ghost use Rattle.log_volume.specs.Disks.{HasCause, Opens, Gives};
ghost use Rattle.log_volume.specs.declared.fault.LogFault.TheVariants.{Failed, Damaged};

use crate::fault::LogFault;
use ds_base::MemberId;
use ds_disk::Disk;
use ds_model::RecordList;
use log_record::{Log, RecordFault, records_in};
use std::alloc::Global;

// The bytes of the member's log.
fn read_bytes<D: Disk>(alloc: Global, disk: &mut D, member: MemberId) -> Result<Vec<u8>, LogFault>
    ensures answers { Gives (D.alive disk.old) (D.alive disk.new) (D.contents disk.old) (D.contents disk.new) result (λ bytes c. bytes.items ≡ log_of c.logs member) }
    ensures cause { HasCause (D.faults disk.old) (D.faults disk.new) result }
{
    let length = disk.log_length(member)?;
    let mut bytes = vec![in alloc; 0u8; length as usize]?;
    let count = disk.read_log(member, 0, &mut bytes)?;
    bytes.truncate(count);
    Ok(bytes)
}

// The whole records of a log's bytes, and how many bytes they have.
fn records_of(alloc: Global, bytes: &[u8]) -> Result<(RecordList, usize), LogFault>
    ensures read { IfOk result (λ read. parts_in bytes.now ≡ Ok (record { records = read.0; size = read.1; tail = length bytes.now - read.1 })) }
    ensures within { IfOk result (λ read. read.1 ≤ length bytes.now) }
    ensures spelled { IfOk result (λ read. take read.1 bytes.now ≡ log_bytes read.0) }
    ensures allowed { IfOk result (λ read. AllByRecursion IsAllowed read.0) }
    ensures damaged { (n : ℕ) → IsErrOf result (Damaged n) → parts_in bytes.now ≡ Err n }
    ensures never { IsErrOf result Failed → ⊥ }
{
    match records_in(alloc, bytes) {
        Ok(found) => Ok(found),
        Err(RecordFault::Bad { at }) => Err(LogFault::Damaged { at: at as u64 }),
        Err(RecordFault::NotWhole | RecordFault::NoMemory) => Err(LogFault::NoMemory),
    }
}

/// Reads the log of a member: its whole records, and how many bytes follow them.
///
/// `Damaged` names the byte of the log where the first field begins that isn't allowed. What was cut short by a stop of
/// the system is no damage: it is the tail.
pub fn open_log<D: Disk>(alloc: Global, disk: &mut D, member: MemberId) -> Result<Log, LogFault>
    ensures answers { Opens member (D.alive disk.old) (D.alive disk.new) (D.contents disk.old) (D.contents disk.new) result }
    ensures cause { HasCause (D.faults disk.old) (D.faults disk.new) result }
    ensures member { IfOk result (λ log. log.member ≡ member) }
    ensures allowed { IfOk result (λ log. AllByRecursion IsAllowed log.records) }
{
    let bytes = read_bytes(alloc, disk, member)?;
    let (records, length) = records_of(alloc, &bytes)?;
    let tail = bytes.len() - length;
    Ok(Log {
        member,
        records,
        length: length as u64,
        tail: tail as u64,
    })
}
