ghost use Rattle.std.specs.Prelude.{◌≡◌, ◌+◌, ◌<◌, ◌≤◌, ◌++◌, ◌==◌, length, take, OnOk, OnErr, IfOk, IfErr};
ghost use Rattle.log_record.specs.Given.{record_bytes, IsAllowed, Fits};
ghost use Rattle.member_log.specs.Buffers.{empty_buffer, room_of, after_put, after_force, started, is_above};

use ds_base::{Lrsn, NoMemory};
use log_record::{LogRecord, record_length, write_record};
use std::alloc::Global;
use std::marker::Model;

/// The record is longer than the room that is left, given in bytes. The pending records must go to the log first.
#[derive(Clone, Copy, Debug, PartialEq, Eq)]
pub struct MustForce {
    pub room: u32,
}

/// The log buffer of a member.
///
/// Log records are collected here and go to the member's log on disk together. Changed pages are written to the
/// group's cache only once their records stand in the log, so the buffer tells how far the log is stable.
#[derive(Drop)]
pub struct MemberLog {
    buffer: Vec<u8>,
    used: u32,
    last: Lrsn,
    stable: Lrsn,
}

impl Model for MemberLog {
    ghost use Rattle.std.specs.Prelude.{◌^◌, ◌≤◌, ◌<◌, length, take, vec_len};
    ghost use Rattle.member_log.specs.Buffers.{LogBuffer};

    ghost Value = { LogBuffer };

    ghost view = { λ l. record { size = vec_len l.buffer; pending = take l.used l.buffer.items; last = l.last; stable = l.stable } };

    ghost invariant = { λ l. (vec_len l.buffer < 2 ^ 32) × (l.used ≤ vec_len l.buffer) };
}

// Writes the record behind the bytes that are used, and answers how many are used then.
fn add_record(buffer: &mut [u8], used: usize, it: &LogRecord) -> usize
    requires fits { Fits it.now }
    requires room { used + length (record_bytes it.now) ≤ length buffer.old }
    ensures end { result ≡ used + length (record_bytes it.now) }
    ensures bytes { take result buffer.new ≡ take used buffer.old ++ record_bytes it.now }
    ensures allowed { IsAllowed it.now }
{
    used + write_record(it, &mut buffer[used..])
}

impl MemberLog {
    /// An empty buffer of `size` bytes. All its memory is taken here.
    pub fn new(alloc: Global, size: u32) -> Result<MemberLog, NoMemory>
        ensures { IfOk result (λ log. log ≡ empty_buffer size) }
    {
        let Some(none) = Lrsn::new(0) else {
            unreachable!()
        };
        Ok(MemberLog {
            buffer: vec![in alloc; 0u8; size as usize]?,
            used: 0,
            last: none,
            stable: none,
        })
    }

    /// Adds a record behind the pending ones, if there is room for it.
    pub fn put(&mut self, it: &LogRecord) -> Result<(), MustForce>
        requires fits { Fits it.now }
        ensures ok { OnOk result (self.new ≡ after_put self.old it.now) }
        ensures room { OnOk result (length (record_bytes it.now) ≤ room_of self.old) }
        ensures must_force { IfErr result (λ e. (e.room ≡ room_of self.old) × (e.room < length (record_bytes it.now))) }
        ensures err { OnErr result (self.new ≡ self.old) }
        ensures allowed { OnOk result (IsAllowed it.now) }
    {
        let room = self.room();
        if record_length(it) > room as usize {
            return Err(MustForce { room });
        }
        let end = add_record(&mut self.buffer, self.used as usize, it);
        self.used = end as u32;
        self.last = it.lrsn;
        Ok(())
    }

    /// The bytes of the records that were put since the last force, in order.
    pub fn pending(&self) -> &[u8]
        ensures { result.now ≡ self.now.pending }
    {
        &self.buffer[..self.used as usize]
    }

    /// The bytes that are left in the buffer.
    pub fn room(&self) -> u32
        ensures { result ≡ room_of self.now }
    {
        self.buffer.len() as u32 - self.used
    }

    /// Says that the pending records stand in the log on disk now.
    pub fn forced(&mut self)
        ensures { self.new ≡ after_force self.old }
    {
        let last = self.last;
        self.start_at(last);
    }

    /// The LRSN of the last record before the pending ones, 0 where there is none.
    pub fn stable(&self) -> Lrsn
        ensures { result ≡ self.now.stable }
    {
        self.stable
    }

    /// The LRSN of the last record that was put, pending or not, 0 where there is none.
    pub fn last(&self) -> Lrsn
        ensures { result ≡ self.now.last }
    {
        self.last
    }

    /// Whether no record is pending.
    pub fn is_empty(&self) -> bool
        ensures { result ≡ (length self.now.pending == 0) }
    {
        self.used == 0
    }

    /// Whether a record is pending and the last one has a number above the limit. Such a record must go to the log before
    /// a number is drawn for another one.
    pub fn is_above(&self, limit: Lrsn) -> bool
        ensures { result ≡ is_above self.now limit }
    {
        !self.is_empty() && limit.number() < self.last.number()
    }

    /// Forgets all records, as before the first one.
    pub fn reset(&mut self)
        ensures { self.new ≡ empty_buffer self.old.size }
    {
        let Some(none) = Lrsn::new(0) else {
            unreachable!()
        };
        self.start_at(none);
    }

    /// Goes on with a log that stands on disk up to this number. Records that are pending are forgotten.
    pub fn start_at(&mut self, last: Lrsn)
        ensures { self.new ≡ started self.old last }
    {
        self.used = 0;
        self.last = last;
        self.stable = last;
    }
}
