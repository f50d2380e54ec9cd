ghost use Rattle.std.specs.Prelude.{◌≡◌, ◌<◌, ◌≤◌, ℕ, List, length, OnOk};
ghost use Rattle.ds_disk.specs.Contents.{log_of};
ghost use Rattle.log_heads.specs.Heads.{taken_of};
ghost use Rattle.log_heads.specs.Logs.{left, work_left};
ghost use Rattle.log_heads.specs.declared.taken.Taken.TheVariants.{Wants};
ghost use Rattle.disk_walk.specs.Reading.{Reads, AreAt};
ghost use Rattle.disk_walk.specs.Walks.{Stand, AreKept, Comes, IsNextOfAll};

use ds_base::MemberId;
use ds_disk::{Disk, DiskError};
use ds_model::LogRecord;
use log_head::{head_laws, whole_laws};
use log_heads::{Heads, Taken, heads_laws};
use log_record::reading_laws;
use std::alloc::Global;

/// What comes next of all logs.
#[derive(Debug, Drop)]
pub enum Next {
    /// The record with the least number, and whose log it is of.
    Record { member: MemberId, it: LogRecord },
    /// The field that begins at this byte of the member's log isn't allowed.
    Bad { member: MemberId, at: u64 },
    /// All records are taken.
    End,
}

// Reads as many bytes of the member's log from this one on as there is room for.
fn read_at<D: Disk>(
    disk: &mut D,
    member: MemberId,
    at: u64,
    into: &mut [u8],
) -> Result<(), DiskError>
    ensures { Reads (D.contents disk.old) (D.contents disk.new) (D.faults disk.old) (D.faults disk.new) (λ _ c. AreAt (log_of c.logs member) at into.new) result }
{
    disk.read_log(member, at, into)?;
    Ok(())
}

// Reads the bytes of the member's log that are wanted.
fn read_on<D: Disk>(
    alloc: Global,
    disk: &mut D,
    heads: &mut Heads,
    member: MemberId,
    at: u64,
    into: &mut [u8],
) -> Result<(), DiskError>
    requires { taken_of heads.old ≡ Wants member at (length into.old) }
    ensures less { OnOk result (work_left heads.new.heads < work_left heads.old.heads) }
    ensures block { OnOk result (heads.new.block ≡ heads.old.block) }
    ensures kept { Reads (D.contents disk.old) (D.contents disk.new) (D.faults disk.old) (D.faults disk.new) (λ _ c. AreKept c.logs heads.old.heads heads.new.heads) result }
{
    heads_laws();
    read_at(disk, member, at, into)?;
    heads.fill(alloc, member, into)?;
    Ok(())
}

// Takes the next record of all logs, or says which bytes are wanted.
fn take(heads: &mut Heads) -> Taken
    ensures wants { (member at count : ℕ) → result ≡ Wants member at count → taken_of heads.new ≡ Wants member at count }
    ensures few { (member at count : ℕ) → result ≡ Wants member at count → count ≤ heads.new.block }
    ensures no_more { work_left heads.new.heads ≤ work_left heads.old.heads }
    ensures block { heads.new.block ≡ heads.old.block }
    ensures taken { (logs : List (List ℕ)) → Stand logs heads.old.heads → Stand logs heads.new.heads × Comes (left logs heads.old.heads) result (left logs heads.new.heads) }
{
    heads_laws();
    whole_laws();
    head_laws();
    reading_laws();
    heads.take()
}

/// The next record of all logs. Where they were found to be whole up to where they are read, nothing is met that isn't allowed.
pub fn next_of_all<D: Disk>(
    alloc: Global,
    disk: &mut D,
    heads: &mut Heads,
    block: &mut [u8],
) -> Result<Next, DiskError>
    requires { heads.old.block ≡ length block.old }
    ensures block { OnOk result (heads.new.block ≡ heads.old.block) }
    ensures next { Reads (D.contents disk.old) (D.contents disk.new) (D.faults disk.old) (D.faults disk.new)
        (λ next c. Stand c.logs heads.old.heads → Stand c.logs heads.new.heads × IsNextOfAll (left c.logs heads.old.heads) next (left c.logs heads.new.heads)) result }
{
    let mut taken = take(heads);
    while let Taken::Wants { member, at, count } = taken {
        read_on(alloc, disk, heads, member, at, &mut block[..count as usize])?;
        taken = take(heads);
    }
    match taken {
        Taken::Record { member, it } => Ok(Next::Record { member, it }),
        Taken::Bad { member, at } => Ok(Next::Bad { member, at }),
        Taken::End => Ok(Next::End),
        Taken::Wants { .. } => unreachable!(),
    }
}
