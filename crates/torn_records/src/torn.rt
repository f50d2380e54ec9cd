ghost use Rattle.std.specs.Prelude.{◌≡◌, ◌↔◌, IsTrue, IfOk};
ghost use Rattle.ds_model.specs.Logs.{IsTorn};
ghost use Rattle.torn_records.specs.Fronts.{Tells, IsIn};

use crate::change::is_front_of_changes;
use crate::plain::is_front_of_plain;
use crate::system::is_front_of_system;
use ds_base::NoMemory;
use ds_model::Version;
use std::alloc::Global;

// Whether the bytes are a proper front of a record of the version.
fn is_front_in(alloc: Global, bytes: &[u8], version: Version) -> Result<bool, NoMemory>
    ensures { Tells bytes.now (IsIn version) result }
{
    let is_plain = is_front_of_plain(alloc, bytes, version)?;
    if is_plain {
        return Ok(true);
    }
    let is_change = is_front_of_changes(alloc, bytes, version)?;
    if is_change {
        return Ok(true);
    }
    is_front_of_system(alloc, bytes, version)
}

/// Whether the bytes are none, or a proper front of a record, as a stop inside an append may leave them.
#[tactic(auto, using(crate::proofs::Sorts::nil_torn))]
pub fn is_torn(alloc: Global, bytes: &[u8]) -> Result<bool, NoMemory>
    ensures { IfOk result (λ torn. IsTrue torn ↔ IsTorn bytes.now) }
{
    if bytes.len() == 0 {
        return Ok(true);
    }
    let is_first = is_front_in(alloc, bytes, Version::One)?;
    if is_first {
        return Ok(true);
    }
    is_front_in(alloc, bytes, Version::Two)
}
