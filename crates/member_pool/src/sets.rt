ghost use Rattle.std.specs.Prelude.{◌≡◌, ℕ, ◌<◌, ◌≤◌, ◌==◌, ◌&&◌, ◌||◌, nat_eq, not, true, false};
ghost use Rattle.member_pool.specs.Marks.{is_page_set};
ghost use Rattle.member_pool.specs.Sets.{has_set, no_sets, any_set};

/// Page sets of the tables 1 to 64.
#[derive(Clone, Copy, Debug, PartialEq, Eq)]
pub struct SetMask {
    bits: u128,
}

impl SetMask {
    /// No page set.
    pub fn none() -> SetMask
        ensures value { result ≡ no_sets }
        ensures sets { (s : ℕ) → has_set result s ≡ false }
    {
        SetMask { bits: 0 }
    }

    /// Whether the page set is among these.
    pub fn contains(&self, set: u16) -> bool
        ensures { result ≡ has_set self.now set }
    {
        if 1 <= set && set <= 128 {
            self.bits >> (set - 1) & 1 == 1
        } else {
            false
        }
    }

    /// Puts a page set in. A number that is no page set, 1 to 128, changes nothing.
    pub fn insert(&mut self, set: u16)
        ensures { (s : ℕ) → has_set self.new s ≡ ((is_page_set set && nat_eq s set) || has_set self.old s) }
    {
        if 1 <= set && set <= 128 {
            self.bits |= 1 << (set - 1);
        }
    }

    /// Takes a page set out.
    pub fn remove(&mut self, set: u16)
        ensures { (s : ℕ) → has_set self.new s ≡ (not (nat_eq s set) && has_set self.old s) }
    {
        if 1 <= set && set <= 128 {
            self.bits &= !(1 << (set - 1));
        }
    }

    /// Whether a page set is among both.
    pub fn meets(&self, other: &SetMask) -> bool
        ensures { result ≡ any_set (λ s. has_set self.now s && has_set other.now s) }
    {
        self.bits & other.bits != 0
    }
}
