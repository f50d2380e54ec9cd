ghost use Rattle.std.specs.Prelude.{◌≡◌, ◌≤◌, ◌++◌, length, drop, IfOk};
ghost use Rattle.torn_records.specs.Fronts.{Tells};
ghost use Rattle.torn_records.specs.Mixes.{Completes};

use ds_base::{Bytes, NoMemory};
use log_record::{RecordFault, read_record, reading_laws};
use std::alloc::Global;

// The bytes, and then what the template has behind as many.
fn filled(alloc: Global, bytes: &[u8], template: &[u8]) -> Result<Bytes, NoMemory>
    requires { length bytes.now ≤ length template.now }
    ensures { IfOk result (λ filled. filled ≡ bytes.now ++ drop (length bytes.now) template.now) }
{
    let mut filled = Bytes::new(alloc);
    filled.extend(bytes)?;
    filled.extend(&template[bytes.len()..])?;
    Ok(filled)
}

/// Whether the bytes are a proper front of the record that they and the rest of the template are.
pub fn completes(alloc: Global, bytes: &[u8], template: &[u8]) -> Result<bool, NoMemory>
    ensures { Tells bytes.now (λ r. Completes r template.now) result }
{
    reading_laws();
    if template.len() <= bytes.len() {
        return Ok(false);
    }
    let filled = filled(alloc, bytes, template)?;
    match read_record(alloc, filled.as_slice()) {
        Ok((_, length)) => Ok(length == template.len()),
        Err(RecordFault::NoMemory) => Err(NoMemory),
        Err(RecordFault::NotWhole) => Ok(false),
        Err(RecordFault::Bad { .. }) => Ok(false),
    }
}
