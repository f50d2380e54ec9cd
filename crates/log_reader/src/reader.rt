ghost use Rattle.std.specs.Prelude.{◌≡◌, ◌+◌, ◌⊎◌, true, IfOk, OnOk, OnErr};
ghost use Rattle.std.specs.Borrow.{sem};
ghost use Rattle.log_reader.specs.Keeping.{AreBytes};

use crate::calls::{LogCall, LogRead, LogReply};
use crate::held::Held;
use ds_base::{MemberId, NoMemory};
use log_record::{Log, RecordFault, records_in};
use std::alloc::Global;
use std::marker::Model;

/// How many bytes of a log are read at most by one call of the disk.
pub const BLOCK: usize = 65_536;

/// What was read so far of the log of a member.
#[derive(Drop)]
pub struct LogReader {
    member: MemberId,
    length: Option<u64>,
    held: Held,
    block: Box<[u8; BLOCK]>,
}

impl Model for LogReader {
    ghost use Rattle.std.specs.Prelude.{box_value};
    ghost use Rattle.log_reader.specs.Readers.{ReaderState};

    ghost Value = { ReaderState };

    ghost view = { λ r. record { member = r.member; length_told = r.length; held = r.held; block = box_value r.block } };
}

// What a block has are bytes. The function does nothing: it is called where that is needed.
fn are_bytes(block: &[u8])
    ensures { AreBytes block.now }
{
    let _bytes = block;
}

impl LogReader {
    ghost use Rattle.log_reader.specs.Readers.{IsNew, next_call, read_from, after_length, after_count, after_reply, is_whole, IsRead};
    ghost use Rattle.log_reader.specs.Lending.{LendsBlock};

    /// A reader of the member's log, of which nothing is read yet.
    pub fn new(alloc: Global, member: MemberId) -> Result<LogReader, NoMemory>
        ensures { IfOk result (IsNew member) }
    {
        Ok(LogReader {
            member,
            length: None,
            held: Held::new(alloc),
            block: Box::new(alloc, [0; BLOCK])?,
        })
    }

    /// The member whose log is read.
    pub fn member(&self) -> MemberId
        ensures { result ≡ self.now.member }
    {
        self.member
    }

    /// The call of the disk that is needed next.
    pub fn next(&self) -> LogCall
        ensures { result ≡ next_call self.now }
    {
        let Some(length) = self.length else {
            return LogCall::Length;
        };
        let at = self.held.end();
        let count = length.saturating_sub(at).min(BLOCK as u64) as u32;
        LogCall::Read { at, count }
    }

    /// The block, into which the disk reads.
    pub fn block(&mut self) -> &mut [u8; BLOCK]
        ensures* writes_back { sem 𝓛 (LendsBlock self.entry result) }
        ensures value { result.now ≡ self.old.block }
    {
        &mut self.block
    }

    /// The bytes of the block.
    pub fn bytes(&self) -> &[u8; BLOCK]
        ensures { result.now ≡ self.now.block }
    {
        &self.block
    }

    /// The log is read from this byte on, as if nothing of it was. Before it stand whole records, which aren't read then.
    pub fn begin_at(&mut self, place: u64)
        ensures { self.new ≡ read_from self.old place }
    {
        self.held.begin_at(place);
    }

    /// Whether one of the records that were looked at is of version 1: of a log that is kept from a checkpoint on, one of those
    /// that aren't kept, or that are.
    pub fn has_old(&self) -> bool
        ensures { result ≡ self.now.held.has_old }
    {
        self.held.has_old()
    }

    fn is_whole(&self) -> bool
        ensures { result ≡ is_whole self.now }
    {
        match self.length {
            None => false,
            Some(length) => length <= self.held.end(),
        }
    }

    // Of a log that is no longer than a block nothing is left out.
    fn tell(&mut self, length: u64)
        ensures { self.new ≡ after_length self.old length }
    {
        self.length = Some(length);
        self.held.keep_all(length <= BLOCK as u64);
    }

    fn count(&mut self, alloc: Global, count: usize) -> Result<(), NoMemory>
        ensures ok { OnOk result (self.new ≡ after_count self.old count) }
        ensures err { OnErr result (self.new ≡ self.old) }
    {
        if count == 0 {
            self.length = Some(self.held.end());
            Ok(())
        } else {
            self.held.grow(alloc, &self.block[..count.min(BLOCK)])
        }
    }

    /// Takes the disk's reply, and tells nothing of the log.
    pub fn enter(&mut self, alloc: Global, reply: LogReply) -> Result<(), NoMemory>
        ensures ok { OnOk result (self.new ≡ after_reply self.old reply) }
        ensures err { OnErr result (self.new ≡ self.old) }
    {
        match reply {
            LogReply::Length(length) => self.tell(length),
            LogReply::Count(count) => self.count(alloc, count)?,
        }
        Ok(())
    }

    // The byte of the log that stands so many bytes behind the first one that is kept.
    fn place(&self, at: usize) -> Result<u64, NoMemory>
        ensures { IfOk result (λ place. place ≡ self.now.held.start + at) }
    {
        self.held.start().checked_add(at as u64).ok_or(NoMemory)
    }

    // The records of the bytes that are kept, all of which are read.
    fn read(&self, alloc: Global) -> Result<LogRead, NoMemory>
        requires { is_whole self.now ≡ true }
        ensures { IfOk result (λ read. IsRead self.now read) }
    {
        let bytes = self.held.bytes();
        match records_in(alloc, bytes) {
            Ok((records, length)) => Ok(LogRead::Whole(Log {
                member: self.member,
                records,
                length: self.place(length)?,
                tail: (bytes.len() - length) as u64,
            })),
            Err(RecordFault::Bad { at }) => Ok(LogRead::Bad {
                at: self.place(at)?,
            }),
            Err(RecordFault::NotWhole | RecordFault::NoMemory) => Err(NoMemory),
        }
    }

    /// What is told of the log now: all that is kept of it, where all of it is read.
    pub fn told(&self, alloc: Global) -> Result<LogRead, NoMemory>
        ensures { IfOk result (λ read. IsRead self.now read) }
    {
        if !self.is_whole() {
            return Ok(LogRead::More);
        }
        self.read(alloc)
    }

    /// Takes the disk's reply: the log, where this was the last of its bytes.
    ///
    /// After `NoMemory` the reply may have been taken or not, and the reader is given up.
    pub fn take(&mut self, alloc: Global, reply: LogReply) -> Result<LogRead, NoMemory>
        ensures answers { IfOk result (λ read. IsRead self.new read) }
        ensures ok { OnOk result (self.new ≡ after_reply self.old reply) }
        ensures bytes { AreBytes self.old.block }
        ensures err { OnErr result ((self.new ≡ self.old) ⊎ (self.new ≡ after_reply self.old reply)) }
    {
        are_bytes(&*self.block);
        self.enter(alloc, reply)?;
        self.told(alloc)
    }
}
