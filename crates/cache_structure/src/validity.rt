//! When registrations were made, and from when on they are valid.
ghost use Rattle.std.specs.Prelude.{◌≡◌};
ghost use Rattle.cache_structure.specs.Bound.{always, valid_from};

use ds_base::MemberId;

/// The registration of a frame with the page of a slot.
#[derive(Clone, Copy, Debug, PartialEq, Eq)]
pub struct Registration {
    pub slot: u32,
    /// The structure's time when it was made.
    pub time: u64,
}

/// From which time on registrations with the page of a slot are valid.
#[derive(Clone, Copy, Debug, PartialEq, Eq)]
pub struct Validity {
    /// The member that wrote the page last.
    pub writer: MemberId,
    /// For the registrations of that member.
    pub own: u64,
    /// For the registrations of all others.
    pub others: u64,
}

impl Validity {
    /// Whatever is registered is valid.
    pub fn always() -> Validity
        ensures { result ≡ always }
    {
        Validity {
            writer: MemberId::new(1).unwrap(),
            own: 0,
            others: 0,
        }
    }

    /// The time from which on the member's registrations are valid.
    pub fn valid_from(&self, member: MemberId) -> u64
        ensures { result ≡ valid_from self.now member }
    {
        if member == self.writer {
            self.own
        } else {
            self.others
        }
    }
}
