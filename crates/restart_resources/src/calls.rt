//! Disk calls.

ghost use Rattle.std.specs.Prelude.{◌≡◌, ◌≤◌, length, min, Err, IfOk, OnOk, MatchResult};
ghost use Rattle.ds_base.specs.Causes.{Rose};
ghost use Rattle.ds_disk.specs.Answers.{HasCause};
ghost use Rattle.ds_disk.specs.declared.disk.DiskError.TheVariants.{Failed};
ghost use Rattle.member_intents.specs.declared.outcome.Answered.TheVariants as answered;
ghost use Rattle.restart_marks.specs.declared.intent.RestartFault.TheVariants as faults;
ghost use Rattle.checkpoint_reader.specs.Lending.{with_block};
ghost use Rattle.log_reader.specs.Readers.{block_size};
ghost use Rattle.restart_resources.specs.Calls.{ReadsFront, CountsFront, ReadsBlock, ReadsInto, TellsLength, Cuts, Appends, Calls, done_told, done_after, got_told, got_after, Stores, RunsCall};

use crate::RestartResources;
use checkpoint_reader::{BLOCK, CheckpointReader, LogReply};
use ds_base::{MemberId, NoMemory, PageId};
use ds_disk::{Disk, DiskError};
use member_intents::Answered;
use restart_marks::{RestartFault, RestartSent, RestartTold};
use std::alloc::Global;

/// What a disk call has given.
#[derive(Clone, Copy, Debug, PartialEq, Eq)]
pub enum Got {
    /// It is done.
    Done,
    /// The log has so many bytes.
    Length(u64),
    /// So many bytes of the log were read.
    Count(usize),
}

// Reads so many bytes of the log into the front of the block.
fn read_front<D: Disk>(
    disk: &mut D,
    member: MemberId,
    at: u64,
    block: &mut [u8],
    count: usize,
) -> Result<usize, DiskError>
    requires { count ≤ length block.old }
    ensures answers { ReadsFront (record { alive = D.alive disk.old; contents = D.contents disk.old }) member at count result (record { alive = D.alive disk.new; contents = D.contents disk.new }) block.new }
    ensures cause { HasCause (D.faults disk.old) (D.faults disk.new) result }
{
    disk.read_log(member, at, &mut block[..count])
}

// The same, as what the call has given.
fn read_count<D: Disk>(
    disk: &mut D,
    member: MemberId,
    at: u64,
    block: &mut [u8],
    count: usize,
) -> Result<Got, DiskError>
    requires { count ≤ length block.old }
    ensures answers { CountsFront (record { alive = D.alive disk.old; contents = D.contents disk.old }) member at count result (record { alive = D.alive disk.new; contents = D.contents disk.new }) block.new }
    ensures cause { HasCause (D.faults disk.old) (D.faults disk.new) result }
{
    match read_front(disk, member, at, block, count) {
        Ok(count) => Ok(Got::Count(count)),
        Err(e) => Err(e),
    }
}

// Reads so many bytes of the log, a block of them at most, for the reader.
fn read_to<D: Disk>(
    disk: &mut D,
    member: MemberId,
    at: u64,
    reader: &mut CheckpointReader,
    count: u32,
) -> Result<Got, DiskError>
    ensures answers { CountsFront (record { alive = D.alive disk.old; contents = D.contents disk.old }) member at (min count block_size) result (record { alive = D.alive disk.new; contents = D.contents disk.new }) reader.new.block }
    ensures reader { reader.new ≡ with_block reader.old reader.new.block }
    ensures cause { HasCause (D.faults disk.old) (D.faults disk.new) result }
{
    let count = (count as usize).min(BLOCK);
    read_count(disk, member, at, reader.block(), count)
}

impl RestartResources {
    fn read_block<D: Disk>(&mut self, disk: &mut D, at: u64, count: u32) -> Result<Got, DiskError>
        ensures answers { ReadsBlock (record { alive = D.alive disk.old; contents = D.contents disk.old }) self.old at count result (record { alive = D.alive disk.new; contents = D.contents disk.new }) self.new }
        ensures cause { HasCause (D.faults disk.old) (D.faults disk.new) result }
    {
        let member = self.marks.member();
        match self.marks.take_reader() {
            Some(reader) => {
                let mut reader = reader;
                let done = read_to(disk, member, at, &mut reader, count);
                self.marks.put_reader(reader);
                done
            }
            None => Ok(Got::Count(0)),
        }
    }

    fn read_page<D: Disk>(&mut self, disk: &mut D, page: PageId) -> Result<Got, DiskError>
        ensures answers { ReadsInto (record { alive = D.alive disk.old; contents = D.contents disk.old }) self.old page result (record { alive = D.alive disk.new; contents = D.contents disk.new }) self.new }
        ensures cause { HasCause (D.faults disk.old) (D.faults disk.new) result }
    {
        match disk.read_page(page, self.page.bytes_mut()) {
            Ok(()) => Ok(Got::Done),
            Err(e) => Err(e),
        }
    }

    fn log_length<D: Disk>(&mut self, disk: &mut D) -> Result<Got, DiskError>
        ensures answers { TellsLength (record { alive = D.alive disk.old; contents = D.contents disk.old }) self.old result (record { alive = D.alive disk.new; contents = D.contents disk.new }) self.new }
        ensures cause { HasCause (D.faults disk.old) (D.faults disk.new) result }
    {
        match disk.log_length(self.marks.member()) {
            Ok(length) => Ok(Got::Length(length)),
            Err(e) => Err(e),
        }
    }

    fn cut_log<D: Disk>(&mut self, disk: &mut D, length: u64) -> Result<Got, DiskError>
        ensures answers { Cuts (record { alive = D.alive disk.old; contents = D.contents disk.old }) self.old length result (record { alive = D.alive disk.new; contents = D.contents disk.new }) self.new }
        ensures cause { HasCause (D.faults disk.old) (D.faults disk.new) result }
    {
        match disk.cut_log(self.marks.member(), length) {
            Ok(()) => Ok(Got::Done),
            Err(e) => Err(e),
        }
    }

    fn append_log<D: Disk>(&mut self, disk: &mut D) -> Result<Got, DiskError>
        ensures answers { Appends (record { alive = D.alive disk.old; contents = D.contents disk.old }) self.old result (record { alive = D.alive disk.new; contents = D.contents disk.new }) self.new }
        ensures cause { HasCause (D.faults disk.old) (D.faults disk.new) result }
    {
        match disk.append_log(self.marks.member(), self.marks.pending()) {
            Ok(()) => Ok(Got::Done),
            Err(e) => Err(e),
        }
    }

    // Makes the disk call.
    fn call<D: Disk>(&mut self, disk: &mut D, sent: &RestartSent) -> Result<Got, DiskError>
        ensures answers { Calls (record { alive = D.alive disk.old; contents = D.contents disk.old }) self.old sent.now result (record { alive = D.alive disk.new; contents = D.contents disk.new }) self.new }
        ensures cause { HasCause (D.faults disk.old) (D.faults disk.new) result }
    {
        match *sent {
            RestartSent::LogLength => self.log_length(disk),
            RestartSent::ReadLog { at, count } => self.read_block(disk, at, count),
            RestartSent::CutLog { length } => self.cut_log(disk, length),
            RestartSent::AppendLog => self.append_log(disk),
            RestartSent::ReadPage(page) => self.read_page(disk, page),
            RestartSent::None | RestartSent::Command(_) => Ok(Got::Done),
        }
    }

    // The effect of a disk call that was done.
    fn settle_done(&mut self, sent: &RestartSent) -> RestartTold
        ensures told { result ≡ done_told sent.now }
        ensures after { self.new ≡ done_after self.old sent.now }
    {
        match sent {
            RestartSent::CutLog { .. } => self.marks.tail_cut(),
            RestartSent::AppendLog => self.marks.forced(),
            RestartSent::ReadPage(_) => self.marks.page_read(),
            _ => RestartTold::Stepped,
        }
    }

    // The effect of what a disk call has given.
    fn settle_got(
        &mut self,
        alloc: Global,
        sent: &RestartSent,
        got: Got,
    ) -> Result<RestartTold, NoMemory>
        ensures told { IfOk result (λ said. said ≡ got_told self.old sent.now got) }
        ensures after { OnOk result (self.new ≡ got_after self.old sent.now got) }
    {
        match got {
            Got::Done => Ok(self.settle_done(sent)),
            Got::Length(length) => self.marks.read_on(alloc, LogReply::Length(length)),
            Got::Count(count) => self.marks.read_on(alloc, LogReply::Count(count)),
        }
    }

    fn store(
        &mut self,
        alloc: Global,
        sent: &RestartSent,
        got: Result<Got, DiskError>,
    ) -> Result<(RestartTold, Answered), RestartFault>
        ensures answers { MatchResult result (λ r. Stores self.old sent.now got r.1 r.0 self.new) (λ fault. fault ≡ faults.NoMemory) }
        ensures failed { IfOk result (λ r. r.1 ≡ answered.Failed → got ≡ Err Failed) }
    {
        match got {
            Ok(got) => {
                let told = self.settle_got(alloc, sent, got)?;
                Ok((told, Answered::Done))
            }
            Err(DiskError::Failed) => Ok((RestartTold::Failed, Answered::Failed)),
            Err(DiskError::NoMemory) => Err(RestartFault::NoMemory),
        }
    }

    /// Makes a disk call, and settles it.
    pub(crate) fn run_call<D: Disk>(
        &mut self,
        alloc: Global,
        disk: &mut D,
        sent: &RestartSent,
    ) -> Result<(RestartTold, Answered), RestartFault>
        ensures answers { MatchResult result (λ r. RunsCall (record { alive = D.alive disk.old; contents = D.contents disk.old }) self.old sent.now r.1 r.0 (record { alive = D.alive disk.new; contents = D.contents disk.new }) self.new) (λ fault. fault ≡ faults.NoMemory) }
        ensures later { D.faults disk.old ≤ D.faults disk.new }
        ensures failed { IfOk result (λ r. r.1 ≡ answered.Failed → Rose (D.faults disk.old) (D.faults disk.new)) }
    {
        let got = self.call(disk, sent);
        self.store(alloc, sent, got)
    }
}
