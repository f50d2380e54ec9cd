//! Disk calls.

ghost use Rattle.std.specs.Prelude.{◌≡◌, ◌≤◌, length, min, Err, IfOk, MatchResult};
ghost use Rattle.ds_base.specs.Causes.{Rose};
ghost use Rattle.ds_disk.specs.Answers.{HasCause};
ghost use Rattle.ds_disk.specs.declared.disk.DiskError.TheVariants.{Failed};
ghost use Rattle.checkpoint_reader.specs.Lending.{with_block};
ghost use Rattle.log_reader.specs.Readers.{block_size};
ghost use Rattle.member_intents.specs.declared.outcome.Answered.TheVariants as answered;
ghost use Rattle.rebuild_resources.specs.declared.intent.RebuildFault.TheVariants as faults;
ghost use Rattle.rebuild_resources.specs.Calls.{TellsLength, TellsBlock, ReadsPage, WritesPage, Calls, StoresDone, StoresGot, Stores, RunsCall};

use crate::{Rebuild, RebuildFault, RebuildSent, RebuildTold};
use checkpoint_reader::{BLOCK, CheckpointReader, LogReply};
use ds_base::{MemberId, NoMemory, PageId};
use ds_disk::{Disk, DiskError};
use member_intents::Answered;
use page_format::Page;
use std::alloc::Global;

/// What a disk call has given.
#[derive(Clone, Copy)]
pub enum Got {
    Done,
    /// About the log that is read.
    Log(LogReply),
}

fn ask_length<D: Disk>(disk: &mut D, member: MemberId) -> Result<Got, DiskError>
    ensures answers { TellsLength member (record { alive = D.alive disk.old; contents = D.contents disk.old }) result (record { alive = D.alive disk.new; contents = D.contents disk.new }) }
    ensures cause { HasCause (D.faults disk.old) (D.faults disk.new) result }
{
    let length = disk.log_length(member)?;
    Ok(Got::Log(LogReply::Length(length)))
}

fn read_into<D: Disk>(
    disk: &mut D,
    member: MemberId,
    at: u64,
    count: usize,
    block: &mut [u8],
) -> Result<Got, DiskError>
    requires { count ≤ length block.old }
    ensures answers { TellsBlock member at count block.new (record { alive = D.alive disk.old; contents = D.contents disk.old }) result (record { alive = D.alive disk.new; contents = D.contents disk.new }) }
    ensures cause { HasCause (D.faults disk.old) (D.faults disk.new) result }
{
    let read = disk.read_log(member, at, &mut block[..count])?;
    Ok(Got::Log(LogReply::Count(read)))
}

// Reads so many bytes of the log, a block of them at most, for the reader.
fn read_block<D: Disk>(
    disk: &mut D,
    member: MemberId,
    at: u64,
    count: u32,
    reader: &mut CheckpointReader,
) -> Result<Got, DiskError>
    ensures answers { TellsBlock member at (min count block_size) reader.new.block (record { alive = D.alive disk.old; contents = D.contents disk.old }) result (record { alive = D.alive disk.new; contents = D.contents disk.new }) }
    ensures reader { reader.new ≡ with_block reader.old reader.new.block }
    ensures cause { HasCause (D.faults disk.old) (D.faults disk.new) result }
{
    let count = (count as usize).min(BLOCK);
    read_into(disk, member, at, count, reader.block())
}

fn read_page<D: Disk>(disk: &mut D, id: PageId, page: &mut Page) -> Result<Got, DiskError>
    ensures answers { ReadsPage id page.new (record { alive = D.alive disk.old; contents = D.contents disk.old }) result (record { alive = D.alive disk.new; contents = D.contents disk.new }) }
    ensures cause { HasCause (D.faults disk.old) (D.faults disk.new) result }
{
    disk.read_page(id, page.bytes_mut())?;
    Ok(Got::Done)
}

fn write_page<D: Disk>(disk: &mut D, id: PageId, page: &Page) -> Result<Got, DiskError>
    ensures answers { WritesPage id page.now (record { alive = D.alive disk.old; contents = D.contents disk.old }) result (record { alive = D.alive disk.new; contents = D.contents disk.new }) }
    ensures cause { HasCause (D.faults disk.old) (D.faults disk.new) result }
{
    disk.write_page(id, page.bytes())?;
    Ok(Got::Done)
}

impl Rebuild {
    // Makes the disk call.
    fn call<D: Disk>(&mut self, disk: &mut D, sent: &RebuildSent) -> Result<Got, DiskError>
        ensures answers { Calls (record { alive = D.alive disk.old; contents = D.contents disk.old }) self.old sent.now result (record { alive = D.alive disk.new; contents = D.contents disk.new }) self.new }
        ensures cause { HasCause (D.faults disk.old) (D.faults disk.new) result }
    {
        match *sent {
            RebuildSent::LogLength(member) => ask_length(disk, member),
            RebuildSent::ReadLog { member, at, count } => {
                read_block(disk, member, at, count, &mut self.reader)
            }
            RebuildSent::ReadPage(page) => read_page(disk, page, &mut self.page),
            RebuildSent::WritePage(page) => write_page(disk, page, &self.page),
            RebuildSent::None | RebuildSent::Command(_) => Ok(Got::Done),
        }
    }

    // The effect of a page that was read or written.
    fn settle_done(&mut self, sent: &RebuildSent) -> RebuildTold
        ensures { StoresDone self.old sent.now result self.new }
    {
        match sent {
            RebuildSent::ReadPage(_) => self.page_read(),
            RebuildSent::WritePage(_) => self.page_written(),
            _ => RebuildTold::Stepped,
        }
    }

    // The effect of what a disk call has given.
    fn settle_got(
        &mut self,
        alloc: Global,
        sent: &RebuildSent,
        got: Got,
    ) -> Result<RebuildTold, NoMemory>
        ensures { IfOk result (λ said. StoresGot self.old sent.now got said self.new) }
    {
        match got {
            Got::Done => Ok(self.settle_done(sent)),
            Got::Log(reply) => self.take_log(alloc, reply),
        }
    }

    fn store(
        &mut self,
        alloc: Global,
        sent: &RebuildSent,
        got: Result<Got, DiskError>,
    ) -> Result<(RebuildTold, Answered), RebuildFault>
        ensures answers { MatchResult result (λ r. Stores self.old sent.now got r.1 r.0 self.new) (λ fault. fault ≡ faults.NoMemory) }
        ensures failed { IfOk result (λ r. r.1 ≡ answered.Failed → got ≡ Err Failed) }
    {
        match got {
            Ok(got) => {
                let told = self.settle_got(alloc, sent, got)?;
                Ok((told, Answered::Done))
            }
            Err(DiskError::Failed) => Ok((RebuildTold::Failed, Answered::Failed)),
            Err(DiskError::NoMemory) => Err(RebuildFault::NoMemory),
        }
    }

    /// Makes a disk call, and settles it.
    pub(crate) fn run_call<D: Disk>(
        &mut self,
        alloc: Global,
        disk: &mut D,
        sent: &RebuildSent,
    ) -> Result<(RebuildTold, Answered), RebuildFault>
        ensures answers { MatchResult result (λ r. RunsCall (record { alive = D.alive disk.old; contents = D.contents disk.old }) self.old sent.now r.1 r.0 (record { alive = D.alive disk.new; contents = D.contents disk.new }) self.new) (λ fault. fault ≡ faults.NoMemory) }
        ensures later { D.faults disk.old ≤ D.faults disk.new }
        ensures failed { IfOk result (λ r. r.1 ≡ answered.Failed → Rose (D.faults disk.old) (D.faults disk.new)) }
    {
        let got = self.call(disk, sent);
        self.store(alloc, sent, got)
    }
}
