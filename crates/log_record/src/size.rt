//! How many bytes the parts of a record have.

ghost use Rattle.std.specs.Prelude.{◌≡◌, ◌*◌, ◌+◌, ◌≤◌, length};
ghost use Rattle.std.specs.List.{flat_map, AllByRecursion};
ghost use Rattle.ds_model.specs.RecordBytes.{state_bytes, change_bytes, patch_bytes, body_bytes, frame_of, length_of, record_bytes, PatchIsAllowed, BodyFits};
ghost use Rattle.ds_model.specs.declared.log.Version.TheVariants as versions;

use crate::version::{frame_of, width_of};
use ds_base::Value;
use ds_model::{Body, LogRecord, Patch, RowChange, Version};

/// The most bytes of a record without patches, in version 2.
pub const LONGEST_WITHOUT_PATCHES: usize = 259;

fn state_length(state: &Option<Value>) -> usize
    ensures exact { result ≡ length (state_bytes state.now) }
    ensures small { result ≤ 102 }
{
    match state {
        None => 2,
        Some(value) => 2 + value.bytes().len(),
    }
}

fn change_length(change: &RowChange) -> usize
    ensures exact { result ≡ length (change_bytes change.now) }
    ensures small { result ≤ 219 }
{
    15 + state_length(&change.before) + state_length(&change.after)
}

/// How many bytes the patches have.
pub fn patches_length(patches: &[Patch]) -> usize
    requires few { length patches.now ≤ 12 }
    requires each { AllByRecursion PatchIsAllowed patches.now }
    ensures exact { result ≡ length (flat_map patch_bytes patches.now) }
    ensures small { result ≤ 12 * 4074 }
{
    let mut total = 0;
    for patch in patches {
        total += 10 + patch.bytes.len();
    }
    total
}

#[tactic(auto, using(crate::proofs::Sizes::number_length, crate::proofs::Sizes::widths))]
fn body_length(version: Version, body: &Body) -> usize
    requires fits { BodyFits version body.now }
    ensures exact { result ≡ length (body_bytes version body.now) }
    ensures small { frame_of version + result ≤ 16384 }
{
    match body {
        Body::RowChange { change } => change_length(change),
        Body::Compensation { change, .. } => change_length(change) + width_of(version),
        Body::System { patches } => 1 + patches_length(patches.as_slice()),
        Body::Checkpoint { .. } => 8,
        Body::Commit | Body::Ended | Body::RestartEnd => 0,
    }
}

/// How many bytes a record with the body has as it is written, in version 2.
pub fn written_length(body: &Body) -> usize
    requires fits { BodyFits versions.Two body.now }
    ensures exact { result ≡ length_of body.now }
    ensures small { result ≤ 16384 }
{
    frame_of(Version::Two) + body_length(Version::Two, body)
}

/// How many bytes the record has: 22 in version 1 and 30 in version 2, and those of its body.
#[tactic(auto, using(crate::proofs::Records::whole_length))]
pub fn record_length(it: &LogRecord) -> usize
    requires fits { BodyFits it.now.version it.now.body }
    ensures exact { result ≡ length (record_bytes it.now) }
    ensures small { result ≤ 16384 }
{
    frame_of(it.version) + body_length(it.version, &it.body)
}
