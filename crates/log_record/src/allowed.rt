ghost use Rattle.std.specs.Prelude.{◌≡◌, ◌≢◌, ◌<◌, ◌↔◌, IsTrue};
ghost use Rattle.std.specs.List.{AllByRecursion};
ghost use Rattle.ds_model.specs.RecordBytes.{StateIsAllowed, ChangeIsAllowed, PatchIsAllowed, ArePatches, is_of_tran, IsNumber, BodyIsAllowed, BodyFits, IsAllowed, Fits};
ghost use Rattle.ds_model.specs.declared.log.Version.TheVariants as versions;

use crate::layout::{LONGEST, PAGE_SETS, PAGE_SIZE, PATCH_LIMIT, PATCHES_LIMIT, SLOTS};
use crate::size::patches_length;
use crate::version::{end_of, frame_of};
use ds_base::{Lrsn, PageId, VALUE_LIMIT, Value};
use ds_model::{Body, LogRecord, Patch, RowChange, Version};

fn state_is_allowed(state: &Option<Value>) -> bool
    ensures always { IsTrue result }
    ensures allowed { StateIsAllowed state.now }
{
    match state {
        None => true,
        Some(value) => value.bytes().len() <= VALUE_LIMIT,
    }
}

fn change_is_allowed(change: &RowChange) -> bool
    ensures decides { IsTrue result ↔ ChangeIsAllowed change.now }
    ensures placed { change.now.place.page ≢ 0 → change.now.place.slot < 31 → IsTrue result }
{
    // Every u64 is a key.
    let _key = change.key;
    let page = change.place.page;
    if !state_is_allowed(&change.before) || !state_is_allowed(&change.after) {
        return false;
    }
    change.table.number() != 0 && page != 0 && change.place.slot < SLOTS
}

fn patch_is_allowed(patch: &Patch) -> bool
    ensures { IsTrue result ↔ PatchIsAllowed patch.now }
{
    let PageId {
        set,
        number: _number,
    } = patch.page;
    let size = patch.bytes.len();
    1 <= set
        && set <= PAGE_SETS
        && 1 <= size
        && size <= PATCH_LIMIT
        && patch.offset as usize + size <= PAGE_SIZE
}

fn all_are_allowed(patches: &[Patch]) -> bool
    ensures { IsTrue result ↔ AllByRecursion PatchIsAllowed patches.now }
{
    patches.iter().all(|patch| patch_is_allowed(patch))
}

fn patches_are_allowed(version: Version, patches: &[Patch]) -> bool
    ensures { IsTrue result ↔ ArePatches version patches.now }
{
    if patches.is_empty() || PATCHES_LIMIT < patches.len() {
        return false;
    }
    all_are_allowed(patches) && frame_of(version) + 1 + patches_length(patches) <= LONGEST
}

// Whether a record with the body belongs to a transaction.
fn is_of_tran(body: &Body) -> bool
    ensures { result ≡ is_of_tran body.now }
{
    match body {
        Body::RowChange { .. } | Body::Compensation { .. } | Body::Commit | Body::Ended => true,
        Body::System { .. } | Body::Checkpoint { .. } | Body::RestartEnd => false,
    }
}

// Whether a record of the version has room for the number.
fn is_number(version: Version, lrsn: Lrsn) -> bool
    ensures decides { IsTrue result ↔ IsNumber version lrsn }
    ensures written { version ≡ versions.Two → IsTrue result }
{
    lrsn.number() < end_of(version)
}

fn body_is_allowed(version: Version, body: &Body) -> bool
    ensures decides { IsTrue result ↔ BodyIsAllowed version body.now }
    ensures enough { version ≡ versions.Two → BodyFits version body.now → IsTrue result }
{
    match body {
        Body::RowChange { change } => change_is_allowed(change),
        Body::Compensation { change, undone } => {
            is_number(version, *undone) && change_is_allowed(change)
        }
        Body::System { patches } => patches_are_allowed(version, patches.as_slice()),
        Body::Checkpoint { offset } => {
            // Every u64 is an offset.
            let _offset = *offset;
            true
        }
        Body::Commit | Body::Ended | Body::RestartEnd => true,
    }
}

/// Whether a log may hold the record: it has the number of a transaction exactly where its kind belongs to one, a
/// changed row lies in a slot of a page, patches lie within their pages and aren't too many, and its numbers (LRSNs) have
/// room in its version.
///
/// The other numbers and the values are in range by their types.
pub fn is_allowed(it: &LogRecord) -> bool
    ensures decides { IsTrue result ↔ IsAllowed it.now }
    ensures enough { Fits it.now → IsTrue result }
{
    let has_numbers = is_number(it.version, it.lrsn)
        && is_number(it.version, it.tran)
        && is_of_tran(&it.body) == (it.tran.number() != 0);
    has_numbers && body_is_allowed(it.version, &it.body)
}
