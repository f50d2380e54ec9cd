//! Lists of patches.
ghost use Rattle.std.specs.Prelude.{◌≡◌, ◌++◌, ◌+◌, ◌*◌, ◌≤◌, length, OnOk};
ghost use Rattle.std.specs.List.{flat_map};
ghost use Rattle.ds_model.specs.RecordBytes.{patch_bytes, length_of, PatchesAreAllowed};
ghost use Rattle.ds_model.specs.declared.log.Body.TheVariants as body;

use ds_base::NoMemory;
use page_format::{Patch, Patches};

// Adds patches at the end.
pub fn append(patches: &mut Patches, more: Patches) -> Result<(), NoMemory>
    ensures { OnOk result (patches.new ≡ patches.old ++ more) }
{
    for patch in more.into_vec() {
        patches.push(patch)?;
    }
    Ok(())
}

fn sum_of(patches: &[Patch]) -> usize
    requires { PatchesAreAllowed patches.now }
    ensures exact { result ≡ length (flat_map patch_bytes patches.now) }
    ensures small { result ≤ 12 * 4074 }
{
    let mut total = 0;
    for patch in patches {
        total += 10 + patch.bytes.len();
    }
    total
}

/// How many bytes the log record of these patches has.
pub fn patches_length(patches: &Patches) -> u32
    requires { PatchesAreAllowed patches.now }
    ensures { result ≡ length_of (body.System patches.now) }
{
    31 + sum_of(patches.as_slice()) as u32
}
