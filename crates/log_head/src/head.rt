ghost use Rattle.std.specs.Prelude.{◌≡◌, ◌+◌, ◌-◌, ◌≤◌, [], ◌++◌, length, take, drop, OnOk, OnErr};
ghost use Rattle.log_record.specs.Given.{record_limit};
ghost use Rattle.log_record.specs.Reading.{record_in};

use crate::records::read_records;
use crate::standing::Standing;
use ds_base::{Lrsn, NoMemory};
use log_record::LogRecord;
use std::alloc::Global;
use std::collections::VecDeque;
use std::marker::Model;

/// A log that is read by blocks from one byte of it up to another.
///
/// The records of the bytes in hand are read when the bytes come, so that a record is taken without memory.
#[derive(Drop)]
pub struct Head {
    // Where the bytes in hand begin.
    at: u64,
    end: u64,
    // The bytes that were read last, behind what was in hand then.
    bytes: Vec<u8>,
    // How many of these were taken since.
    taken: usize,
    // The whole records of the others, each with its length.
    records: VecDeque<(LogRecord, usize)>,
    // Where the first field behind these records begins that isn't allowed.
    bad: Option<u64>,
}

impl Model for Head {
    ghost use Rattle.std.specs.Prelude.{drop};
    ghost use Rattle.log_head.specs.Heads.{HeadState, Keeps};

    ghost Value = { HeadState };

    ghost view = { λ h. record { at = h.at; hand = drop h.taken h.bytes.items; end = h.end } };

    ghost invariant = { λ h. Keeps h.at h.end h.bytes.items h.taken h.records.items h.bad };
}

// Drops the first bytes, and answers how many are left.
fn drop_front(bytes: &mut Vec<u8>, count: usize) -> usize
    requires { count ≤ length bytes.old.items }
    ensures left { bytes.new.items ≡ drop count bytes.old.items }
    ensures count { result ≡ length bytes.new.items }
{
    let left = bytes.len() - count;
    bytes.copy_within(count.., 0);
    bytes.truncate(left);
    left
}

impl Head {
    ghost use Rattle.log_head.specs.Heads.{hand_end, IsShort, standing_of, first_of, number_of, after_take, filled};

    /// The log from one byte on and up to another, of which nothing is read yet.
    #[tactic(auto, unfolding(log_record::specs::Reading::record_in))]
    pub fn new(alloc: Global, start: u64, end: u64) -> Head
        requires { start ≤ end }
        ensures { result ≡ record { at = start; hand = []; end = end } }
    {
        Head {
            at: start,
            end,
            bytes: Vec::new(alloc),
            taken: 0,
            records: VecDeque::new(alloc),
            bad: None,
        }
    }

    /// Where the next record begins.
    pub fn at(&self) -> u64
        ensures { result ≡ self.now.at }
    {
        self.at
    }

    /// Up to where the log is read.
    pub fn end(&self) -> u64
        ensures { result ≡ self.now.end }
    {
        self.end
    }

    /// How far the log can be read on, by blocks of so many bytes.
    pub fn standing(&self, block: u32) -> Standing
        ensures { result ≡ standing_of block self.now }
    {
        if let Some(_) = self.records.front() {
            return Standing::Ready;
        }
        if let Some(at) = self.bad {
            return Standing::Bad { at };
        }
        let next = self.at + (self.bytes.len() - self.taken) as u64;
        if next < self.end {
            let count = (self.end - next).min(block as u64) as u32;
            Standing::Wants { at: next, count }
        } else {
            Standing::Ends { at: self.at }
        }
    }

    /// The number of the first record in hand.
    pub fn number(&self) -> Option<Lrsn>
        ensures { result ≡ number_of self.now }
    {
        match self.records.front() {
            Some((record, _)) => Some(record.lrsn),
            None => None,
        }
    }

    /// Takes the first record in hand.
    pub fn take(&mut self) -> Option<LogRecord>
        ensures record { result ≡ first_of self.old }
        ensures after { self.new ≡ after_take self.old }
    {
        let (record, length) = self.records.pop_front()?;
        self.at += length as u64;
        self.taken += length;
        Some(record)
    }

    /// Puts bytes behind those in hand, which are no whole record.
    pub fn fill(&mut self, alloc: Global, bytes: &[u8]) -> Result<(), NoMemory>
        requires short { IsShort (record_in self.old.hand) }
        requires room { hand_end self.old + length bytes.now ≤ self.old.end }
        ensures ok { OnOk result (self.new ≡ filled self.old bytes.now) }
        ensures err { OnErr result (self.new ≡ self.old) }
        ensures few { length self.new.hand ≤ record_limit + length bytes.now }
    {
        let left = drop_front(&mut self.bytes, self.taken);
        self.taken = 0;
        self.bytes.extend_from_slice(bytes)?;
        match read_records(alloc, &self.bytes, self.at, &mut self.records) {
            Ok(bad) => {
                self.bad = bad;
                Ok(())
            }
            Err(NoMemory) => {
                self.records.clear();
                self.bytes.truncate(left);
                Err(NoMemory)
            }
        }
    }
}
