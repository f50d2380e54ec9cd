//! The bytes of a log that are kept while it is read: those from its last checkpoint on.

ghost use Rattle.std.specs.Prelude.{◌≡◌, ℕ, ◌+◌, ◌-◌, ◌<◌, ◌≤◌, ◌^◌, [], false, length, drop, IfOk, IfSome, IfNone, OnOk, OnErr};
ghost use Rattle.ds_model.specs.RecordBytes.{record_bytes};
ghost use Rattle.log_record.specs.Reading.{record_in};
ghost use Rattle.log_head.specs.Whole.{whole_records};
ghost use Rattle.log_reader.specs.Held.{names, names_other, begins_at, is_earlier, is_old, begun_at, gone_on, marked_one, marked_all, first_mark};

use ds_base::NoMemory;
use ds_model::{Body, LogRecord, Version};
use log_head::whole_laws;
use log_record::{RecordFault, read_record};
use std::alloc::Global;
use std::marker::Model;

/// How far the records of bytes were looked at.
#[derive(Clone, Copy, Debug, PartialEq, Eq)]
pub struct Mark {
    /// Where the bytes begin that are kept.
    pub from: usize,
    /// Up to here all are whole records that were looked at.
    pub to: usize,
    /// The number of the checkpoint with which they begin, 0 where they begin the log.
    pub low: u128,
    /// Whether all of the log is to be read anew: a checkpoint names another byte than its own, or a record belongs to a
    /// transaction that began before the checkpoint.
    pub wants_all: bool,
    /// Whether one of the records that were looked at is of version 1.
    pub has_old: bool,
}

/// What is kept of a log.
#[derive(Drop)]
pub struct Held {
    // Where the bytes begin in the log, and where they end.
    start: u64,
    end: u64,
    bytes: Vec<u8>,
    // How many of them are whole records that were looked at.
    passed: usize,
    // The number of the checkpoint with which they begin, 0 where they begin the log.
    low: u128,
    keeps_all: bool,
    // Whether one of the records that were looked at is of version 1, kept or not.
    has_old: bool,
}

impl Model for Held {
    ghost use Rattle.log_reader.specs.Held.{HeldState};

    ghost Value = { HeldState };

    ghost view = { λ h. record { start = h.start; end = h.end; bytes = h.bytes.items; passed = h.passed; low = h.low; keeps_all = h.keeps_all; has_old = h.has_old } };
}

// Whether it is a checkpoint that names this byte.
fn names(place: u64, body: &Body) -> bool
    ensures { result ≡ names place body.now }
{
    match body {
        Body::Checkpoint { offset } => *offset == place,
        Body::RowChange { .. }
        | Body::Compensation { .. }
        | Body::System { .. }
        | Body::Commit
        | Body::Ended
        | Body::RestartEnd => false,
    }
}

// Whether it is a checkpoint that names another byte.
fn names_other(place: u64, body: &Body) -> bool
    ensures { result ≡ names_other place body.now }
{
    match body {
        Body::Checkpoint { offset } => *offset != place,
        Body::RowChange { .. }
        | Body::Compensation { .. }
        | Body::System { .. }
        | Body::Commit
        | Body::Ended
        | Body::RestartEnd => false,
    }
}

// Whether the log is read on from the place of the record, which begins there.
fn begins_at(place: u64, it: &LogRecord) -> bool
    ensures { result ≡ begins_at place it.now }
{
    matches!(it.version, Version::Two) && names(place, &it.body)
}

// No log is so long that a number of 64 bits doesn't hold its length.
fn behind(place: u64, more: usize) -> Result<u64, NoMemory>
    ensures { IfOk result (λ sum. sum ≡ place + more) }
{
    place.checked_add(more as u64).ok_or(NoMemory)
}

// Drops the first bytes.
fn drop_front(bytes: &mut Vec<u8>, count: usize)
    requires { count ≤ length bytes.old.items }
    ensures { bytes.new.items ≡ drop count bytes.old.items }
{
    if 0 < count {
        let left = bytes.len() - count;
        bytes.copy_within(count.., 0);
        bytes.truncate(left);
    }
}

// The record that stands at this place of the bytes, and its length, or nothing where none does.
fn record_at(
    alloc: Global,
    bytes: &[u8],
    from: usize,
) -> Result<Option<(LogRecord, usize)>, NoMemory>
    requires { from ≤ length bytes.now }
    ensures found { IfOk result (λ next. IfSome next (λ found. record_in (drop from bytes.now) ≡ Ok found)) }
    ensures size { IfOk result (λ next. IfSome next (λ found. found.1 ≡ length (record_bytes found.0))) }
    ensures within { IfOk result (λ next. IfSome next (λ found. (1 ≤ found.1) × (found.1 ≤ length bytes.now - from))) }
    ensures none { IfOk result (λ next. IfNone next (whole_records (drop from bytes.now) ≡ [])) }
{
    whole_laws();
    match read_record(alloc, &bytes[from..]) {
        Ok(found) => Ok(Some(found)),
        Err(RecordFault::NotWhole | RecordFault::Bad { .. }) => Ok(None),
        Err(RecordFault::NoMemory) => Err(NoMemory),
    }
}

// Whether the record belongs to a transaction whose number isn't above this one, as those are that began before.
fn is_earlier(low: u128, it: &LogRecord) -> bool
    ensures { result ≡ is_earlier low it.now }
{
    let tran = it.tran.number();
    0 < tran && tran <= low
}

fn is_old(it: &LogRecord) -> bool
    ensures { result ≡ is_old it.now }
{
    matches!(it.version, Version::One)
}

// The mark behind a checkpoint at which reading begins.
fn begun_at(mark: Mark, it: &LogRecord, to: usize) -> Mark
    requires { to ≡ mark.to + length (record_bytes it.now) }
    ensures { result ≡ begun_at mark it.now }
{
    Mark {
        from: mark.to,
        to,
        low: it.lrsn.number(),
        wants_all: mark.wants_all,
        has_old: mark.has_old,
    }
}

// The mark behind any other record, which begins at this byte of the log.
fn gone_on(place: u64, mark: Mark, it: &LogRecord, to: usize) -> Mark
    requires { to ≡ mark.to + length (record_bytes it.now) }
    ensures { result ≡ gone_on place mark it.now }
{
    let wants_all = names_other(place, &it.body) || is_earlier(mark.low, it);
    Mark {
        from: mark.from,
        to,
        low: mark.low,
        wants_all: mark.wants_all || wants_all,
        has_old: mark.has_old || is_old(it),
    }
}

// The mark behind one record more, of bytes that begin there in the log.
fn marked_one(start: u64, mark: Mark, it: &LogRecord, size: usize) -> Result<Mark, NoMemory>
    requires fits { mark.to + size < 2 ^ 64 }
    requires size { size ≡ length (record_bytes it.now) }
    ensures { IfOk result (λ m. m ≡ marked_one start mark it.now) }
{
    let place = behind(start, mark.to)?;
    let to = mark.to + size;
    if begins_at(place, it) {
        Ok(begun_at(mark, it, to))
    } else {
        Ok(gone_on(place, mark, it, to))
    }
}

// The mark behind all whole records of bytes that begin there in the log, with a checkpoint of this number.
fn mark_records(alloc: Global, start: u64, bytes: &[u8], first: Mark) -> Result<Mark, NoMemory>
    requires order { first.from ≤ first.to }
    requires inside { first.to ≤ length bytes.now }
    ensures exact { IfOk result (λ m. m ≡ marked_all start first (whole_records (drop first.to bytes.now))) }
    ensures within { IfOk result (λ m. (m.from ≤ m.to) × (m.to ≤ length bytes.now)) }
{
    whole_laws();
    let mut mark = first;
    while let Some((it, size)) = record_at(alloc, bytes, mark.to)? {
        mark = marked_one(start, mark, &it, size)?;
    }
    Ok(mark)
}

impl Held {
    ghost use Rattle.std.specs.Prelude.{true};
    ghost use Rattle.log_reader.specs.Held.{nothing_held, held_from, with_mark, settled, grown};

    /// Nothing of a log.
    pub fn new(alloc: Global) -> Held
        ensures { result ≡ nothing_held false }
    {
        Held {
            start: 0,
            end: 0,
            bytes: Vec::new(alloc),
            passed: 0,
            low: 0,
            keeps_all: false,
            has_old: false,
        }
    }

    /// Nothing of a log that is read from this byte on.
    pub fn begin_at(&mut self, place: u64)
        ensures { self.new ≡ held_from place }
    {
        self.start = place;
        self.end = place;
        self.bytes.clear();
        self.passed = 0;
        self.low = 0;
        self.keeps_all = false;
        self.has_old = false;
    }

    /// Where the bytes begin in the log.
    pub fn start(&self) -> u64
        ensures { result ≡ self.now.start }
    {
        self.start
    }

    /// Where they end.
    pub fn end(&self) -> u64
        ensures { result ≡ self.now.end }
    {
        self.end
    }

    pub fn bytes(&self) -> &[u8]
        ensures { result.now ≡ self.now.bytes }
    {
        &self.bytes
    }

    /// Whether one of the records that were looked at is of version 1, kept or not. While nothing is left out, none is looked at.
    pub fn has_old(&self) -> bool
        ensures { result ≡ self.now.has_old }
    {
        self.has_old
    }

    /// Whether nothing is left out, wherever a checkpoint stands.
    pub fn keep_all(&mut self, keeps_all: bool)
        ensures { self.new ≡ record self.old { keeps_all = keeps_all } }
    {
        self.keeps_all = keeps_all;
    }

    // All of the log is read anew.
    fn begin_again(&mut self)
        ensures { self.new ≡ nothing_held true }
    {
        self.start = 0;
        self.end = 0;
        self.bytes.clear();
        self.passed = 0;
        self.low = 0;
        self.keeps_all = true;
        self.has_old = false;
    }

    // How far the bytes were looked at before.
    fn first_mark(&self) -> Mark
        ensures { result ≡ first_mark self.now.passed self.now.low self.now.has_old }
    {
        Mark {
            from: 0,
            to: self.passed,
            low: self.low,
            wants_all: false,
            has_old: self.has_old,
        }
    }

    fn keep(&mut self, mark: Mark) -> Result<(), NoMemory>
        requires order { mark.from ≤ mark.to }
        requires within { mark.to ≤ length self.old.bytes }
        ensures ok { OnOk result (self.new ≡ with_mark self.old mark) }
        ensures err { OnErr result (self.new ≡ self.old) }
    {
        if mark.wants_all {
            self.begin_again();
            return Ok(());
        }
        self.start = behind(self.start, mark.from)?;
        drop_front(&mut self.bytes, mark.from);
        self.passed = mark.to - mark.from;
        self.low = mark.low;
        self.has_old = mark.has_old;
        Ok(())
    }

    // Only what stands from the last checkpoint on is kept.
    #[tactic(auto, unfolding(crate::specs::Held::settled))]
    fn settle(&mut self, alloc: Global) -> Result<(), NoMemory>
        ensures ok { OnOk result (self.new ≡ settled self.old) }
        ensures err { OnErr result (self.new ≡ self.old) }
    {
        if self.keeps_all || self.bytes.len() < self.passed {
            return Ok(());
        }
        let first = self.first_mark();
        let mark = mark_records(alloc, self.start, &self.bytes, first)?;
        self.keep(mark)
    }

    /// Takes the next bytes of the log.
    pub fn grow(&mut self, alloc: Global, more: &[u8]) -> Result<(), NoMemory>
        ensures ok { OnOk result (self.new ≡ grown self.old more.now) }
        ensures err { OnErr result (self.new ≡ self.old) }
    {
        let (before, old_end) = (self.bytes.len(), self.end);
        let end = behind(self.end, more.len())?;
        self.bytes.extend_from_slice(more)?;
        self.end = end;
        let settled = self.settle(alloc);
        if settled.is_err() {
            self.bytes.truncate(before);
            self.end = old_end;
        }
        settled
    }
}
