ghost use Rattle.std.specs.Prelude.{◌≡◌, ◌+◌, ◌<◌, ◌^◌, if◌then◌else◌, ◌==◌, ℕ};
ghost use Rattle.ds_base.specs.Ids.{IsMember};
ghost use Rattle.lock_structure.specs.Entries.{has_member, interest_in, blocks, with_class};

use crate::mask;
use ds_base::MemberId;
use lock_names::{Class, Interest};

/// An entry of the lock table: how often it was granted, and the members with share and with exclusive interest.
#[derive(Clone, Copy, Debug, PartialEq, Eq)]
pub struct Entry {
    pub version: u64,
    pub share: u32,
    pub exclusive: u32,
}

impl Entry {
    /// An entry that nobody has interest in.
    pub(crate) const EMPTY: Entry = Entry {
        version: 0,
        share: 0,
        exclusive: 0,
    };

    /// What the member has in the entry.
    pub(crate) fn interest(self, member: MemberId) -> Interest
        ensures { result ≡ interest_in self member }
    {
        Interest {
            share: mask::has(self.share, member),
            exclusive: mask::has(self.exclusive, member),
        }
    }

    /// The entry where the member has this interest.
    pub(crate) fn with_interest(self, member: MemberId, interest: Interest) -> Entry
        ensures version { result.version ≡ self.version }
        ensures interest { (k : ℕ) → IsMember k → interest_in result k ≡ (if k == member then interest else interest_in self k) }
    {
        Entry {
            version: self.version,
            share: set(self.share, member, interest.share),
            exclusive: set(self.exclusive, member, interest.exclusive),
        }
    }

    /// The entry after a grant to the member.
    pub(crate) fn granted(self, member: MemberId, class: Class) -> Entry
        requires { self.version + 1 < 2 ^ 64 }
        ensures version { result.version ≡ self.version + 1 }
        ensures interest { (k : ℕ) → IsMember k → interest_in result k ≡ (if k == member then with_class class (interest_in self k) else interest_in self k) }
    {
        let (share, exclusive) = match class {
            Class::Share => (mask::with(self.share, member), self.exclusive),
            Class::Exclusive => (self.share, mask::with(self.exclusive, member)),
        };
        Entry {
            version: self.version + 1,
            share,
            exclusive,
        }
    }
}

fn set(mask: u32, member: MemberId, is_in: bool) -> u32
    ensures { (k : ℕ) → IsMember k → has_member result k ≡ (if k == member then is_in else has_member mask k) }
{
    if is_in {
        mask::with(mask, member)
    } else {
        mask::without(mask, member)
    }
}

/// Whether another member's interest is in the way of a lock of this class.
#[tactic(auto, unfolding(crate::specs::Entries::blocks))]
pub fn is_in_the_way(class: Class, interest: Interest) -> bool
    ensures { result ≡ blocks class interest }
{
    match class {
        Class::Share => interest.exclusive,
        Class::Exclusive => interest.share || interest.exclusive,
    }
}
