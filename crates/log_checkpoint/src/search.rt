ghost use Rattle.std.specs.Prelude.{◌≡◌, ℕ, ◌+◌, ◌-◌, ◌<◌, ◌≤◌, List, [], ◌++◌, Some, length, IfOk, IfNone, OnOk, OnErr};
ghost use Rattle.ds_model.specs.RecordBytes.{record_limit};
ghost use Rattle.log_checkpoint.specs.Backwards.{told_body};

use crate::found::Found;
use crate::last::Last;
use crate::laws::search_laws;
use crate::read::last_of;
use ds_base::NoMemory;
use ds_model::Body;
use std::alloc::Global;
use std::marker::Model;

/// A log whose last checkpoint is looked for.
#[derive(Drop)]
pub struct CheckpointSearch {
    block: u32,
    // Where the bytes in hand begin.
    low: u64,
    bytes: Vec<u8>,
}

impl Model for CheckpointSearch {
    ghost use Rattle.std.specs.Prelude.{◌+◌, ◌<◌, ◌≤◌, ◌^◌, length};
    ghost use Rattle.ds_model.specs.RecordBytes.{record_limit};
    ghost use Rattle.log_checkpoint.specs.Backwards.{SearchState};

    ghost Value = { SearchState };

    ghost view = { λ s. record { block = s.block; low = s.low; hand = s.bytes.items } };

    ghost invariant = { λ s. (s.low + length s.bytes.items < 2 ^ 64) × (record_limit ≤ s.block) };
}

fn joined(alloc: Global, front: &[u8], back: &[u8]) -> Result<Vec<u8>, NoMemory>
    ensures { IfOk result (λ both. both.items ≡ front.now ++ back.now) }
{
    let mut both = Vec::from_slice(alloc, front)?;
    both.extend_from_slice(back)?;
    Ok(both)
}

// The checkpoint that begins at this place, if the record is one.
fn told_body(at: u64, body: &Body) -> Option<Found>
    ensures { result ≡ told_body at body.now }
{
    match body {
        Body::Checkpoint { offset } => Some(Found::At {
            at,
            offset: *offset,
        }),
        Body::RowChange { .. }
        | Body::Compensation { .. }
        | Body::System { .. }
        | Body::Commit
        | Body::Ended
        | Body::RestartEnd => None,
    }
}

impl CheckpointSearch {
    ghost use Rattle.log_checkpoint.specs.Backwards.{told_short, told_of, after_step, searched, AreWanted, filled};
    ghost use Rattle.log_checkpoint.specs.Passed.{AreBefore, IsOf, IsTold, HasPassed};

    /// A search from this end of the whole records of a log. At most so many bytes are asked for at once.
    pub fn new(alloc: Global, end: u64, block: u32) -> CheckpointSearch
        requires { record_limit ≤ block }
        ensures { result ≡ record { block = block; low = end; hand = [] } }
    {
        CheckpointSearch {
            block,
            low: end,
            bytes: Vec::new(alloc),
        }
    }

    // The bytes before those in hand are wanted, or there are none.
    fn told_short(&self) -> Found
        ensures { result ≡ told_short self.now }
    {
        if self.low == 0 {
            if self.bytes.is_empty() {
                Found::Missing
            } else {
                Found::Broken
            }
        } else {
            let count = self.low.min(self.block as u64);
            Found::Wants {
                at: self.low - count,
                count: count as u32,
            }
        }
    }

    // What is told of the last record in hand, which is passed where that is nothing.
    #[tactic(auto, using(crate::proofs::Passes::pass_none, crate::proofs::Passes::pass_last))]
    fn step(&mut self, alloc: Global) -> Result<Option<Found>, NoMemory>
        ensures told { IfOk result (λ told. told ≡ told_of self.old) }
        ensures after { OnOk result (self.new ≡ after_step self.old) }
        ensures err { OnErr result (self.new ≡ self.old) }
        ensures passed { HasPassed self.old self.new }
        ensures less { IfOk result (λ told. IfNone told (length self.new.hand < length self.old.hand)) }
    {
        match last_of(alloc, &self.bytes)? {
            Last::Record { it, length } => {
                let left = self.bytes.len() - length;
                let told = told_body(self.low + left as u64, &it.body);
                if told.is_none() {
                    self.bytes.truncate(left);
                }
                Ok(told)
            }
            Last::Short => Ok(Some(self.told_short())),
            Last::Broken => Ok(Some(Found::Broken)),
        }
    }

    /// Passes the records in hand, from the last one on, up to a checkpoint. After `NoMemory` some may be passed.
    #[tactic(auto, using(crate::proofs::Passes::pass_more))]
    pub fn search(&mut self, alloc: Global) -> Result<Found, NoMemory>
        ensures exact { OnOk result (self.new ≡ searched self.old) }
        ensures told { IfOk result (λ found. told_of self.new ≡ Some found) }
        ensures log { (log : List ℕ) (end : ℕ) → IsOf log end self.old → IsOf log end self.new × IfOk result (λ found. IsTold log end found) }
        ensures passed { HasPassed self.old self.new }
    {
        search_laws();
        log_head::whole_laws();
        let mut told = self.step(alloc)?;
        while told.is_none() {
            told = self.step(alloc)?;
        }
        match told {
            Some(found) => Ok(found),
            None => unreachable!(),
        }
    }

    /// Takes the bytes of the log that are wanted, which stand before those in hand.
    pub fn fill(&mut self, alloc: Global, bytes: &[u8]) -> Result<(), NoMemory>
        requires { AreWanted (told_of self.old) (length bytes.now) }
        ensures ok { OnOk result (self.new ≡ filled self.old bytes.now) }
        ensures err { OnErr result (self.new ≡ self.old) }
        ensures log { (log : List ℕ) (end : ℕ) → IsOf log end self.old → AreBefore log self.old bytes.now → OnOk result (IsOf log end self.new) }
        ensures few { OnOk result (length self.new.hand < record_limit + length bytes.now) }
    {
        search_laws();
        self.bytes = joined(alloc, bytes, &self.bytes)?;
        self.low -= bytes.len() as u64;
        Ok(())
    }
}
