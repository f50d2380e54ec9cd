ghost use Rattle.std.specs.Prelude.{◌≡◌, ◌↔◌, ℕ, ◌+◌, ◌-◌, ◌<◌, ◌≤◌, List, length, slice_set, IfOk, OnOk, OnErr};
ghost use Rattle.std.specs.List.{AllByRecursion};
ghost use Rattle.ds_model.specs.RecordBytes.{record_limit};
ghost use Rattle.log_record.specs.Reading.{record_in};
ghost use Rattle.log_head.specs.Heads.{hand_end, filled, IsShort};
ghost use Rattle.log_heads.specs.Heads.{AreStarts, heads_of, head_at};

use crate::laws::heads_laws;
use crate::scan::{first_stop, take_least};
use crate::taken::Taken;
use ds_base::{MemberId, NoMemory};
use log_head::Head;
use std::alloc::Global;
use std::marker::Model;

/// The logs of all members, which are read by blocks.
#[derive(Drop)]
pub struct Heads {
    block: u32,
    heads: Vec<Head>,
}

impl Model for Heads {
    ghost use Rattle.std.specs.Prelude.{◌≡◌, ◌≤◌, vec_len};
    ghost use Rattle.std.specs.List.{AllByRecursion};
    ghost use Rattle.log_heads.specs.Heads.{HeadsState, IsFew};

    ghost Value = { HeadsState };

    ghost view = { λ h. record { block = h.block; heads = h.heads.items } };

    ghost invariant = { λ h. (vec_len h.heads ≡ 32) × (1 ≤ h.block) × AllByRecursion (IsFew h.block) h.heads.items };
}

// The logs from these starts on and up to these lengths.
#[tactic(auto, using(crate::proofs::Scans::starts_at, crate::proofs::Scans::heads_more))]
fn heads_of(alloc: Global, starts: &[u64], lengths: &[u64]) -> Result<Vec<Head>, NoMemory>
    requires count { length starts.now ≡ length lengths.now }
    requires within { AreStarts starts.now lengths.now }
    ensures { IfOk result (λ heads. heads.items ≡ heads_of starts.now lengths.now) }
{
    let mut heads = Vec::new(alloc);
    for i in 0..starts.len() {
        heads.push(Head::new(alloc, starts[i], lengths[i]))?;
    }
    Ok(heads)
}

// Puts bytes behind those in hand of the log at this place.
fn fill_at(alloc: Global, heads: &mut [Head], place: usize, bytes: &[u8]) -> Result<(), NoMemory>
    requires in_bounds { place < length heads.old }
    requires short { IsShort (record_in (head_at heads.old place).hand) }
    requires room { hand_end (head_at heads.old place) + length bytes.now ≤ (head_at heads.old place).end }
    ensures ok { OnOk result (heads.new ≡ slice_set heads.old place (filled (head_at heads.old place) bytes.now)) }
    ensures err { OnErr result (heads.new ≡ heads.old) }
    ensures few { OnOk result (length (filled (head_at heads.old place) bytes.now).hand ≤ record_limit + length bytes.now) }
{
    heads[place].fill(alloc, bytes)
}

impl Heads {
    ghost use Rattle.log_heads.specs.declared.taken.Taken.TheVariants.{Wants, End};
    ghost use Rattle.log_heads.specs.Heads.{IsFew, taken_of, after_taken, AreWanted, after_fill};
    ghost use Rattle.log_heads.specs.Logs.{AreOf, AreNextOf, GoesOn, AreRead, work_left, IsFilled};

    /// The logs of all members from these starts on and up to these lengths, each of which begins with the first member's. Of a
    /// log at most so many bytes are asked for at once.
    pub fn new(
        alloc: Global,
        starts: &[u64],
        lengths: &[u64],
        block: u32,
    ) -> Result<Heads, NoMemory>
        requires starts { length starts.now ≡ 32 }
        requires lengths { length lengths.now ≡ 32 }
        requires within { AreStarts starts.now lengths.now }
        requires some { 1 ≤ block }
        ensures { IfOk result (λ h. h ≡ record { block = block; heads = heads_of starts.now lengths.now }) }
    {
        let heads = heads_of(alloc, starts, lengths)?;
        Ok(Heads { block, heads })
    }

    /// Where the next record of the member's log begins.
    pub fn at(&self, member: MemberId) -> u64
        ensures { result ≡ (head_at self.now.heads (member - 1)).at }
    {
        self.heads[member.number() as usize - 1].at()
    }

    // The next record of all logs, or why none is taken.
    fn take_next(&mut self) -> Taken
        ensures taken { result ≡ taken_of self.old }
        ensures after { self.new ≡ after_taken self.old }
        ensures few { AllByRecursion (IsFew self.new.block) self.new.heads }
    {
        if let Some(stop) = first_stop(&self.heads, self.block) {
            return stop;
        }
        take_least(&mut self.heads)
    }

    /// Takes the next record of all logs. Where a log can't go on, the first such is named, and nothing changes.
    pub fn take(&mut self) -> Taken
        ensures taken { result ≡ taken_of self.old }
        ensures after { self.new ≡ after_taken self.old }
        ensures wants { (member at count : ℕ) → result ≡ Wants member at count → taken_of self.new ≡ Wants member at count }
        ensures goes { (logs : List (List ℕ)) → AreOf logs self.old.heads → GoesOn logs self.old.heads result self.new.heads }
        ensures end { (logs : List (List ℕ)) → AreOf logs self.old.heads → (result ≡ End) ↔ AreRead self.old.heads }
        ensures no_more { work_left self.new.heads ≤ work_left self.old.heads }
        ensures few { AllByRecursion (IsFew self.new.block) self.new.heads }
    {
        heads_laws();
        self.take_next()
    }

    // Puts bytes that are wanted behind those in hand.
    fn put(&mut self, alloc: Global, member: MemberId, bytes: &[u8]) -> Result<(), NoMemory>
        requires { AreWanted (taken_of self.old) member (length bytes.now) }
        ensures ok { OnOk result (self.new ≡ after_fill self.old member bytes.now) }
        ensures err { OnErr result (self.new ≡ self.old) }
        ensures some { 1 ≤ self.old.block }
        ensures few { AllByRecursion (IsFew self.new.block) self.new.heads }
    {
        fill_at(alloc, &mut self.heads, member.number() as usize - 1, bytes)?;
        Ok(())
    }

    /// Takes the bytes of the member's log that are wanted.
    pub fn fill(&mut self, alloc: Global, member: MemberId, bytes: &[u8]) -> Result<(), NoMemory>
        requires { AreWanted (taken_of self.old) member (length bytes.now) }
        ensures ok { OnOk result (self.new ≡ after_fill self.old member bytes.now) }
        ensures err { OnErr result (self.new ≡ self.old) }
        ensures goes { (logs : List (List ℕ)) → AreOf logs self.old.heads → AreNextOf logs self.old.heads member bytes.now → OnOk result (IsFilled logs self.old.heads self.new.heads) }
        ensures less { OnOk result (work_left self.new.heads < work_left self.old.heads) }
        ensures few { AllByRecursion (IsFew self.new.block) self.new.heads }
    {
        heads_laws();
        self.put(alloc, member, bytes)?;
        Ok(())
    }
}
