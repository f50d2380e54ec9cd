use ds_base::MemberId;

/// A set of members. No contract rests on which are in it: it says alone where a look may find something new.
#[derive(Clone, Copy, Debug, PartialEq, Eq)]
pub struct Members {
    // The bit of a member is that of its number.
    bits: u64,
}

fn bit_of(member: MemberId) -> u64 {
    1 << (member.number() % 64)
}

impl Members {
    pub fn none() -> Members {
        Members { bits: 0 }
    }

    pub fn all() -> Members {
        Members { bits: u64::MAX }
    }

    pub fn one(member: MemberId) -> Members {
        Members {
            bits: bit_of(member),
        }
    }

    pub fn is_empty(&self) -> bool {
        self.bits == 0
    }

    pub fn has(&self, member: MemberId) -> bool {
        self.bits & bit_of(member) != 0
    }

    /// Takes the members of another set in.
    pub fn join(&mut self, others: Members) {
        self.bits |= others.bits;
    }

    pub fn remove(&mut self, member: MemberId) {
        self.bits &= !bit_of(member);
    }
}
