ghost use Rattle.std.specs.Prelude.{◌≡◌, ℕ, ◌<◌, ◌≤◌, List, [], false, length, None, IsTrue, OnOk, OnErr};
ghost use Rattle.log_head.specs.Heads.{first_of, standing_of, IsOf, AreNext};
ghost use Rattle.log_end.specs.Ends.{end_of, ArePassed};

use ds_base::NoMemory;
use log_head::{Head, Standing, head_laws, whole_laws};
use std::alloc::Global;
use std::marker::Model;

/// A log of which is looked for where its whole records end.
#[derive(Drop)]
pub struct WholeEnd {
    block: u32,
    head: Head,
}

impl Model for WholeEnd {
    ghost use Rattle.std.specs.Prelude.{◌≡◌, None};
    ghost use Rattle.log_head.specs.Heads.{first_of};
    ghost use Rattle.log_end.specs.Ends.{EndState};

    ghost Value = { EndState };

    ghost view = { λ e. record { block = e.block; head = e.head } };

    ghost invariant = { λ e. first_of e.head ≡ None };
}

// Passes the first whole record in hand, if there is one.
fn pass_one(head: &mut Head) -> bool
    ensures passed { ArePassed head.old head.new }
    ensures less { IsTrue result → length head.new.hand < length head.old.hand }
    ensures none { result ≡ false → first_of head.new ≡ None }
{
    whole_laws();
    head_laws();
    let taken = head.take();
    taken.is_some()
}

// Passes the whole records in hand.
#[tactic(auto, using(crate::proofs::Passing::none_passed, crate::proofs::Passing::more_passed))]
fn pass_records(head: &mut Head)
    ensures passed { ArePassed head.old head.new }
    ensures none { first_of head.new ≡ None }
{
    while pass_one(head) {}
}

impl WholeEnd {
    ghost use Rattle.log_head.specs.declared.standing.Standing.TheVariants.{Ready};
    ghost use Rattle.log_end.specs.Ends.{Tells, AreWanted, IsRead};

    /// The log from a place on where a record begins, up to its length. At most so many bytes are asked for at once.
    #[tactic(auto, using(crate::proofs::Starting::nothing_first))]
    pub fn new(alloc: Global, start: u64, length: u64, block: u32) -> WholeEnd
        requires { start ≤ length }
        ensures { result ≡ record { block = block; head = record { at = start; hand = []; end = length } } }
    {
        whole_laws();
        WholeEnd {
            block,
            head: Head::new(alloc, start, length),
        }
    }

    /// Which bytes are wanted, or where the whole records end, or where the first field begins that isn't allowed.
    pub fn standing(&self) -> Standing
        ensures exact { result ≡ standing_of self.now.block self.now.head }
        ensures never { result ≡ Ready → ⊥ }
        ensures tells { (log : List ℕ) → IsOf log self.now.head → Tells result (end_of log self.now.head) }
    {
        whole_laws();
        head_laws();
        self.head.standing(self.block)
    }

    /// Takes the bytes of the log that are wanted. Where its whole records end stays the same.
    pub fn fill(&mut self, alloc: Global, bytes: &[u8]) -> Result<(), NoMemory>
        requires { AreWanted (standing_of self.old.block self.old.head) (length bytes.now) }
        ensures ok { OnOk result (IsRead self.old self.new (length bytes.now)) }
        ensures err { OnErr result (self.new ≡ self.old) }
        ensures log { (log : List ℕ) → IsOf log self.old.head → AreNext log self.old.head bytes.now → OnOk result (IsOf log self.new.head × (end_of log self.new.head ≡ end_of log self.old.head)) }
    {
        head_laws();
        self.head.fill(alloc, bytes)?;
        pass_records(&mut self.head);
        Ok(())
    }
}
