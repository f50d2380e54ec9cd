ghost use Rattle.std.specs.Prelude.{◌≤◌, ◌<◌, ◌^◌, length, IfOk};

use ds_base::NoMemory;
use std::alloc::Global;

// How many bytes of a log are read at most by one call of the disk.
const BLOCK: usize = 65_536;

/// Room for the bytes of a log that are read by one call of the disk.
pub fn block_of(alloc: Global) -> Result<Vec<u8>, NoMemory>
    ensures some { IfOk result (λ block. 1 ≤ length block.items) }
    ensures fits { IfOk result (λ block. length block.items < 2 ^ 32) }
{
    Ok(vec![in alloc; 0u8; BLOCK]?)
}
