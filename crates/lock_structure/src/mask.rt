//! Sets of members as bits: bit `m - 1` stands for member m.

ghost use Rattle.std.specs.Prelude.{◌≡◌, true, false, if◌then◌else◌, ◌==◌, ℕ};
ghost use Rattle.ds_base.specs.Ids.{IsMember};
ghost use Rattle.lock_structure.specs.Entries.{has_member};

use ds_base::MemberId;

/// Whether the member is in the set.
pub fn has(mask: u32, member: MemberId) -> bool
    ensures { result ≡ has_member mask member }
{
    (mask >> (member.number() - 1)) & 1 == 1
}

/// The set with the member.
pub fn with(mask: u32, member: MemberId) -> u32
    ensures { (k : ℕ) → IsMember k → has_member result k ≡ (if k == member then true else has_member mask k) }
{
    mask | (1 << (member.number() - 1))
}

/// The set without the member.
pub fn without(mask: u32, member: MemberId) -> u32
    ensures { (k : ℕ) → IsMember k → has_member result k ≡ (if k == member then false else has_member mask k) }
{
    mask & !(1 << (member.number() - 1))
}
