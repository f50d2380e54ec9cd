//! The record at the end of bytes.

ghost use Rattle.std.specs.Prelude.{◌≡◌, length, IfOk};
ghost use Rattle.log_checkpoint.specs.Backwards.{EndsIn, last_sized, last_of};

use crate::last::Last;
use byteorder::{BigEndian, ByteOrder};
use ds_base::NoMemory;
use log_record::{RecordFault, read_record};
use std::alloc::Global;

/// The most bytes of a record.
const LONGEST: usize = 16_384;

// The record of so many bytes at the end.
fn last_sized(alloc: Global, bytes: &[u8], size: usize) -> Result<Last, NoMemory>
    ensures exact { IfOk result (λ last. last ≡ last_sized bytes.now size) }
    ensures within { IfOk result (λ last. EndsIn last (length bytes.now)) }
{
    if LONGEST < size {
        return Ok(Last::Broken);
    }
    if bytes.len() < size {
        return Ok(Last::Short);
    }
    match read_record(alloc, &bytes[bytes.len() - size..]) {
        Ok((it, length)) if length == size => Ok(Last::Record { it, length }),
        Ok(_) => Ok(Last::Broken),
        Err(RecordFault::NoMemory) => Err(NoMemory),
        Err(RecordFault::NotWhole | RecordFault::Bad { .. }) => Ok(Last::Broken),
    }
}

/// The record that ends with the bytes, by the length that stands at its end.
#[tactic(auto, unfolding(crate::specs::Backwards::last_of))]
pub fn last_of(alloc: Global, bytes: &[u8]) -> Result<Last, NoMemory>
    ensures exact { IfOk result (λ last. last ≡ last_of bytes.now) }
    ensures within { IfOk result (λ last. EndsIn last (length bytes.now)) }
{
    if bytes.len() < 4 {
        return Ok(Last::Short);
    }
    let size = BigEndian::read_u32(&bytes[bytes.len() - 4..]) as usize;
    last_sized(alloc, bytes, size)
}
