//! The calls of a disk by which its logs are read.

ghost use Rattle.std.specs.Prelude.{◌≡◌, ℕ, length};
ghost use Rattle.ds_disk.specs.Contents.{log_of};
ghost use Rattle.disk_heads.specs.Reading.{Reads, Never, AreAt};

use ds_base::MemberId;
use ds_disk::Disk;
use log_volume::LogFault;

/// How many bytes of a log are read at most by one call of the disk.
pub const BLOCK: usize = 65_536;

/// The length of the member's log in bytes.
pub fn read_length<D: Disk>(disk: &mut D, member: MemberId) -> Result<u64, LogFault>
    ensures { Reads (D.contents disk.old) (D.contents disk.new) (D.faults disk.old) (D.faults disk.new) (λ n c. n ≡ length (log_of c.logs member)) Never result }
{
    Ok(disk.log_length(member)?)
}

/// Reads as many bytes of the member's log from this one on as there is room for. Of a log that ends before, the others
/// are what they were.
pub fn read_at<D: Disk>(
    disk: &mut D,
    member: MemberId,
    at: u64,
    into: &mut [u8],
) -> Result<(), LogFault>
    ensures { Reads (D.contents disk.old) (D.contents disk.new) (D.faults disk.old) (D.faults disk.new) (λ _ c. AreAt (log_of c.logs member) at into.new) Never result }
{
    disk.read_log(member, at, into)?;
    Ok(())
}
