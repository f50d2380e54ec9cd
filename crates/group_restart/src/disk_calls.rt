//! Calls of the disk.

ghost use Rattle.std.specs.Prelude.{◌≡◌, ◌≤◌, length, IfOk};
ghost use Rattle.ds_disk.specs.Answers.{HasCause};
ghost use Rattle.log_reader.specs.Readers.{block_size};
ghost use Rattle.log_reader.specs.Lending.{with_block};
ghost use Rattle.group_restart.specs.Calls.{call_of};
ghost use Rattle.group_restart.specs.Disk.{TellsLength, TellsBlock, Cuts, Appends, ReadsPage, WritesPage, Calls};

use crate::calls::Call;
use crate::machine::GroupRestart;
use crate::reply::Reply;
use ds_base::{MemberId, PageId};
use ds_disk::{Disk, DiskError};
use log_reader::{LogReader, LogReply};
use page_format::Page;

fn ask_length<D: Disk>(disk: &mut D, member: MemberId) -> Result<Reply, DiskError>
    ensures answers { TellsLength member (record { alive = D.alive disk.old; contents = D.contents disk.old }) result (record { alive = D.alive disk.new; contents = D.contents disk.new }) }
    ensures cause { HasCause (D.faults disk.old) (D.faults disk.new) result }
{
    let length = disk.log_length(member)?;
    Ok(Reply::Log(LogReply::Length(length)))
}

fn cut<D: Disk>(disk: &mut D, member: MemberId, length: u64) -> Result<Reply, DiskError>
    ensures answers { Cuts member length (record { alive = D.alive disk.old; contents = D.contents disk.old }) result (record { alive = D.alive disk.new; contents = D.contents disk.new }) }
    ensures cause { HasCause (D.faults disk.old) (D.faults disk.new) result }
{
    disk.cut_log(member, length)?;
    Ok(Reply::Done)
}

fn append<D: Disk>(disk: &mut D, member: MemberId, bytes: &[u8]) -> Result<Reply, DiskError>
    ensures answers { Appends member bytes.now (record { alive = D.alive disk.old; contents = D.contents disk.old }) result (record { alive = D.alive disk.new; contents = D.contents disk.new }) }
    ensures cause { HasCause (D.faults disk.old) (D.faults disk.new) result }
{
    disk.append_log(member, bytes)?;
    Ok(Reply::Done)
}

fn read_page<D: Disk>(disk: &mut D, id: PageId, page: &mut Page) -> Result<Reply, DiskError>
    ensures answers { ReadsPage id page.new (record { alive = D.alive disk.old; contents = D.contents disk.old }) result (record { alive = D.alive disk.new; contents = D.contents disk.new }) }
    ensures cause { HasCause (D.faults disk.old) (D.faults disk.new) result }
{
    disk.read_page(id, page.bytes_mut())?;
    Ok(Reply::Done)
}

fn write_page<D: Disk>(disk: &mut D, id: PageId, page: &Page) -> Result<Reply, DiskError>
    ensures answers { WritesPage id page.now (record { alive = D.alive disk.old; contents = D.contents disk.old }) result (record { alive = D.alive disk.new; contents = D.contents disk.new }) }
    ensures cause { HasCause (D.faults disk.old) (D.faults disk.new) result }
{
    disk.write_page(id, page.bytes())?;
    Ok(Reply::Done)
}

fn read_into<D: Disk>(
    disk: &mut D,
    member: MemberId,
    at: u64,
    count: u32,
    block: &mut [u8],
) -> Result<Reply, DiskError>
    requires { count ≤ length block.old }
    ensures answers { TellsBlock member at count block.new (record { alive = D.alive disk.old; contents = D.contents disk.old }) result (record { alive = D.alive disk.new; contents = D.contents disk.new }) }
    ensures cause { HasCause (D.faults disk.old) (D.faults disk.new) result }
{
    let read = disk.read_log(member, at, &mut block[..count as usize])?;
    Ok(Reply::Log(LogReply::Count(read)))
}

fn read_block<D: Disk>(
    disk: &mut D,
    member: MemberId,
    at: u64,
    count: u32,
    reader: &mut LogReader,
) -> Result<Reply, DiskError>
    requires { count ≤ block_size }
    ensures answers { TellsBlock member at count reader.new.block (record { alive = D.alive disk.old; contents = D.contents disk.old }) result (record { alive = D.alive disk.new; contents = D.contents disk.new }) }
    ensures reader { reader.new ≡ with_block reader.old reader.new.block }
    ensures cause { HasCause (D.faults disk.old) (D.faults disk.new) result }
{
    read_into(disk, member, at, count, reader.block())
}

impl GroupRestart {
    /// Makes the next call.
    pub(crate) fn make_call<D: Disk>(&mut self, disk: &mut D) -> Result<Reply, DiskError>
        ensures answers { Calls self.old (call_of self.old) (record { alive = D.alive disk.old; contents = D.contents disk.old }) result (record { alive = D.alive disk.new; contents = D.contents disk.new }) self.new }
        ensures cause { HasCause (D.faults disk.old) (D.faults disk.new) result }
    {
        match self.call() {
            Call::LogLength(member) => ask_length(disk, member),
            Call::ReadLog { member, at, count } => {
                read_block(disk, member, at, count, &mut self.reader)
            }
            Call::CutLog { member, length } => cut(disk, member, length),
            Call::AppendLog(member) => append(disk, member, self.added.bytes()),
            Call::ReadPage(page) => read_page(disk, page, &mut self.page),
            Call::WritePage(page) => write_page(disk, page, &self.page),
        }
    }
}
