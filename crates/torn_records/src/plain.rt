ghost use Rattle.torn_records.specs.Fronts.{Tells, IsPlainIn};

use crate::frame::is_front_with;
use ds_base::NoMemory;
use ds_model::Version;
use std::alloc::Global;

/// Whether the bytes are a proper front of a record of the version with neither a row's change nor patches.
pub fn is_front_of_plain(alloc: Global, bytes: &[u8], version: Version) -> Result<bool, NoMemory>
    ensures { Tells bytes.now (IsPlainIn version) result }
{
    let is_commit = is_front_with(alloc, bytes, version, 4, true, &[])?;
    if is_commit {
        return Ok(true);
    }
    let is_ended = is_front_with(alloc, bytes, version, 5, true, &[])?;
    if is_ended {
        return Ok(true);
    }
    let is_restart_end = is_front_with(alloc, bytes, version, 7, false, &[])?;
    if is_restart_end {
        return Ok(true);
    }
    is_front_with(alloc, bytes, version, 6, false, &[0; 8])
}
