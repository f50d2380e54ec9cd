//! A bell a member, that rings where something changed which the member may wait for.
ghost use Rattle.std.specs.Prelude.{◌≡◌, ◌↔◌, IsTrue, replicate, ℕ};
ghost use Rattle.list_structure.specs.Bells.{bell_of, rung, CanRing};

use ds_base::MemberId;
use std::marker::Model;

/// How often each member's bell has rung. All ring together, so that one count tells it.
#[derive(Drop)]
pub struct Bells {
    count: u64,
}

impl Model for Bells {
    ghost use Rattle.std.specs.Prelude.{ℕ, List, replicate};

    ghost Value = { List ℕ };

    ghost view = { λ b. replicate 32 b.count };
}

impl Bells {
    /// Bells that have never rung.
    #[tactic(auto, using(crate::proofs::Ringing::silent))]
    pub fn new() -> Bells
        ensures each { (member : ℕ) → bell_of result member ≡ 0 }
        ensures all { result ≡ replicate 32 0 }
    {
        Bells { count: 0 }
    }

    /// Makes all bells those that have never rung.
    #[tactic(auto, using(crate::proofs::Ringing::silent))]
    pub fn clear(&mut self)
        ensures each { (member : ℕ) → bell_of self.new member ≡ 0 }
        ensures all { self.new ≡ replicate 32 0 }
    {
        self.count = 0;
    }

    /// How often the member's bell has rung.
    pub fn count(&self, member: MemberId) -> u64
        ensures { result ≡ bell_of self.now member }
    {
        let _place = member.number();
        self.count
    }

    /// Whether no count is at its end.
    pub fn can_ring(&self) -> bool
        ensures { IsTrue result ↔ CanRing self.now }
    {
        self.count < u64::MAX
    }

    /// Rings all bells.
    pub fn ring(&mut self)
        requires { CanRing self.old }
        ensures { self.new ≡ rung self.old }
    {
        self.count += 1;
    }
}
