ghost use Rattle.std.specs.Prelude.{◌≡◌, length, IfOk};
ghost use Rattle.ds_disk.specs.Contents.{log_of};
ghost use Rattle.disk_logs.specs.Looking.{Reads, IsLooked, IsLookedAllowed, IsLookedOfSome, AreFound, AreFoundOfSome};

use crate::log::{Looked, whole_log};
use ds_base::{MemberId, NoMemory, Sequence};
use ds_disk::{Disk, DiskError};
use log_record::Log;
use std::alloc::Global;

/// Logs that were read.
pub type LogList = Sequence<Log>;

/// What the logs of a disk are.
#[derive(Drop)]
pub enum Found {
    /// All of them, in the order of the members.
    Whole(LogList),
    /// The first that breaks off, and the byte at which it does.
    Broken { member: MemberId, at: u64 },
}

// So many zeros.
pub fn zeros(alloc: Global, count: usize) -> Result<Vec<u8>, NoMemory>
    ensures { IfOk result (λ zeros. length zeros.items ≡ count) }
{
    Ok(vec![in alloc; 0u8; count]?)
}

// The bytes of the member's log.
fn read_bytes<D: Disk>(alloc: Global, disk: &mut D, member: MemberId) -> Result<Vec<u8>, DiskError>
    ensures { Reads (D.contents disk.old) (D.contents disk.new) (D.faults disk.old) (D.faults disk.new) (λ bytes c. bytes.items ≡ log_of c.logs member) result }
{
    let length = disk.log_length(member)?;
    let mut bytes = zeros(alloc, length as usize)?;
    let count = disk.read_log(member, 0, &mut bytes)?;
    bytes.truncate(count);
    Ok(bytes)
}

fn look<D: Disk>(alloc: Global, disk: &mut D, member: MemberId) -> Result<Looked, DiskError>
    ensures reads { Reads (D.contents disk.old) (D.contents disk.new) (D.faults disk.old) (D.faults disk.new) (λ looked c. IsLooked member (log_of c.logs member) looked) result }
    ensures allowed { IfOk result IsLookedAllowed }
    ensures some { IfOk result (λ looked. IsLookedOfSome member looked) }
{
    let bytes = read_bytes(alloc, disk, member)?;
    let looked = whole_log(alloc, member, &bytes)?;
    Ok(looked)
}

/// The logs of all members, in their order, or where the first of them breaks off.
pub fn read_logs<D: Disk>(alloc: Global, disk: &mut D) -> Result<Found, DiskError>
    ensures reads { Reads (D.contents disk.old) (D.contents disk.new) (D.faults disk.old) (D.faults disk.new) (λ found c. AreFound c.logs found) result }
    ensures some { IfOk result AreFoundOfSome }
{
    let mut logs = Sequence::new(alloc);
    for index in 0..32u64 {
        let Some(member) = MemberId::new(index + 1) else {
            unreachable!()
        };
        match look(alloc, disk, member)? {
            Looked::Whole(log) => logs.push(log)?,
            Looked::Broken { at } => return Ok(Found::Broken { member, at }),
        }
    }
    Ok(Found::Whole(logs))
}
