//! How far the retained records of a member were gone over.

ghost use Rattle.std.specs.Prelude.{◌≡◌, ◌≤◌, List, Some, slice_set};
ghost use Rattle.lock_structure.specs.Buckets.{IsPlaced};
ghost use Rattle.lock_structure.specs.declared.chain.Held.{Held};

use ds_base::MemberId;

/// A bucket, and how many retained records of the member stand in the buckets before it.
#[derive(Clone, Copy, Debug, PartialEq, Eq)]
pub struct Cursor {
    pub member: MemberId,
    pub bucket: usize,
    pub before: u32,
}

/// The place from which to look for the member's retained record of this number.
pub fn start_for(cursor: Option<Cursor>, member: MemberId, at: u32) -> Cursor
    ensures member { result.member ≡ member }
    ensures before { result.before ≤ at }
    ensures placed { (cs : List (List Held)) → IsPlaced cursor cs → IsPlaced (Some result) cs }
{
    match cursor {
        Some(cursor) if cursor.member.number() == member.number() && cursor.before <= at => cursor,
        _ => Cursor {
            member,
            bucket: 0,
            before: 0,
        },
    }
}

/// The place that still stands when the records of a bucket change.
pub fn kept(cursor: Option<Cursor>, bucket: usize) -> Option<Cursor>
    ensures { (cs : List (List Held)) (ys : List Held) → IsPlaced cursor cs → IsPlaced result (slice_set cs bucket ys) }
{
    match cursor {
        Some(cursor) if cursor.bucket <= bucket => Some(cursor),
        _ => None,
    }
}
