ghost use Rattle.std.specs.Prelude.{◌≡◌, IfOk, OnOk};
ghost use Rattle.std.specs.Borrow.{sem};
ghost use Rattle.checkpoint_reader.specs.Readers.{call_by};

use ds_base::{MemberId, NoMemory};
use log_checkpoint::{CheckpointSearch, Found, search_laws};
use log_reader::{BLOCK, LogCall, LogRead, LogReader, LogReply};
use std::alloc::Global;
use std::marker::Model;

/// The search for the last checkpoint, and the bytes that it wants.
#[derive(Drop)]
pub struct Looking {
    search: CheckpointSearch,
    at: u64,
    count: u32,
}

/// What was read so far of the log of a member.
#[derive(Drop)]
pub struct CheckpointReader {
    known: u64,
    looking: Option<Looking>,
    reader: LogReader,
}

impl Model for CheckpointReader {
    ghost use Rattle.checkpoint_reader.specs.Readers.{ReaderState, state_of};

    ghost Value = { ReaderState };

    ghost view = { λ r. state_of r.known r.looking r.reader };
}

// The call that wants these bytes, or the other one where none are looked for.
fn call_by(looking: &Option<Looking>, forward: LogCall) -> LogCall
    ensures { result ≡ call_by looking.now forward }
{
    match looking {
        None => forward,
        Some(looking) => LogCall::Read {
            at: looking.at,
            count: looking.count,
        },
    }
}

impl CheckpointReader {
    ghost use Rattle.checkpoint_reader.specs.Readers.{IsNew, next_call, led, after_length, after_looking, after_reply, is_whole, IsRead};
    ghost use Rattle.checkpoint_reader.specs.Lending.{LendsBlock};

    /// A reader of the member's log, of which nothing is read yet, and which is known to be whole records up to this byte.
    pub fn new(alloc: Global, member: MemberId, known: u64) -> Result<CheckpointReader, NoMemory>
        ensures fresh { IfOk result (IsNew member) }
        ensures known { IfOk result (λ reader. reader.known ≡ known) }
    {
        Ok(CheckpointReader {
            known,
            looking: None,
            reader: LogReader::new(alloc, member)?,
        })
    }

    /// The member whose log is read.
    pub fn member(&self) -> MemberId
        ensures { result ≡ self.now.member }
    {
        self.reader.member()
    }

    /// The call of the disk that is needed next.
    pub fn next(&self) -> LogCall
        ensures { result ≡ next_call self.now }
    {
        call_by(&self.looking, self.reader.next())
    }

    /// The block, into which the disk reads.
    pub fn block(&mut self) -> &mut [u8; BLOCK]
        ensures* writes_back { sem 𝓛 (LendsBlock self.entry result) }
        ensures value { result.now ≡ self.old.block }
    {
        self.reader.block()
    }

    // Looks on where no bytes were wanted: for those that are now, or reading begins where the log is read.
    fn look_on(&mut self, alloc: Global, search: CheckpointSearch) -> Result<(), NoMemory>
        ensures { OnOk result (self.new ≡ led self.old search) }
    {
        let mut search = search;
        match search.search(alloc)? {
            Found::Wants { at, count } => self.looking = Some(Looking { search, at, count }),
            Found::At { at, offset } if at == offset => self.reader.begin_at(at),
            Found::At { .. } | Found::Missing | Found::Broken => {}
        }
        Ok(())
    }

    fn tell(&mut self, alloc: Global, length: u64) -> Result<(), NoMemory>
        ensures { OnOk result (self.new ≡ after_length self.old length) }
    {
        self.reader.enter(alloc, LogReply::Length(length))?;
        if (BLOCK as u64) < length && 0 < self.known && self.known <= length {
            let search = CheckpointSearch::new(alloc, self.known, BLOCK as u32);
            self.look_on(alloc, search)?;
        }
        Ok(())
    }

    // Takes the bytes that are wanted; where there are others, the log is read from its first byte.
    fn look(
        &mut self,
        alloc: Global,
        search: CheckpointSearch,
        reply: LogReply,
    ) -> Result<(), NoMemory>
        ensures { OnOk result (self.new ≡ after_looking self.old search reply) }
    {
        let mut search = search;
        let LogReply::Count(count) = reply else {
            return Ok(());
        };
        let Found::Wants { count: wanted, .. } = search.search(alloc)? else {
            return Ok(());
        };
        if count != wanted as usize || BLOCK < count {
            return Ok(());
        }
        search.fill(alloc, &self.reader.bytes()[..count])?;
        self.look_on(alloc, search)
    }

    fn enter(&mut self, alloc: Global, reply: LogReply) -> Result<(), NoMemory>
        ensures { OnOk result (self.new ≡ after_reply self.old reply) }
    {
        match self.looking.take() {
            Some(looking) => {
                let Looking { search, .. } = looking;
                self.look(alloc, search, reply)
            }
            None => match reply {
                LogReply::Length(length) => self.tell(alloc, length),
                LogReply::Count(_) => self.reader.enter(alloc, reply),
            },
        }
    }

    // What is told of the log now.
    fn told(&self, alloc: Global) -> Result<LogRead, NoMemory>
        ensures { IfOk result (λ read. IsRead self.now read) }
    {
        if self.looking.is_some() {
            return Ok(LogRead::More);
        }
        self.reader.told(alloc)
    }

    /// Takes the disk's reply: the log, where this was the last of its bytes.
    ///
    /// After `NoMemory` the reader is given up.
    pub fn take(&mut self, alloc: Global, reply: LogReply) -> Result<LogRead, NoMemory>
        ensures answers { IfOk result (λ read. IsRead self.new read) }
        ensures ok { OnOk result (self.new ≡ after_reply self.old reply) }
    {
        self.enter(alloc, reply)?;
        self.told(alloc)
    }
}
