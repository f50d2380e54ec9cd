//! The bytes of an image.

ghost use Rattle.std.specs.Prelude.{◌≡◌};
ghost use Rattle.copy_recover.specs.Reading.{ReadsImage};

use ds_base::Source;
use std::alloc::Global;
use table_copy::CopyFault;
use whole_streams::{ReadError, read_all};

// No image is longer, or memory is wanting.
const LONGEST: usize = 0xffff_fffe;

/// All that is left of the source.
pub fn read_image<S: Source>(alloc: Global, source: &mut S) -> Result<Vec<u8>, CopyFault>
    ensures { ReadsImage (S.left source.old) (S.faults source.old) (S.faults source.new) result }
{
    match read_all(alloc, source, LONGEST) {
        Ok(bytes) if bytes.len() <= LONGEST => Ok(bytes),
        Ok(_) => Err(CopyFault::NoMemory),
        Err(ReadError::Failed) => Err(CopyFault::Source),
        Err(ReadError::NoMemory) => Err(CopyFault::NoMemory),
    }
}
