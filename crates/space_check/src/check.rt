ghost use Rattle.std.specs.Prelude.{◌≡◌, length, true, IfOk};
ghost use Rattle.disk_walk.specs.Reading.{Reads};
ghost use Rattle.disk_walk.specs.Whole.{OfWholeLogs};
ghost use Rattle.fitting_records.specs.Telling.{AreFitTold};
ghost use Rattle.sound_disk.specs.Transactions.{AreTransactions};
ghost use Rattle.space_check.specs.Telling.{TellsEnded, TellsFit};
ghost use Rattle.space_check.specs.Verdicts.{IsTold};

use crate::clauses::{check_found, unsound};
use crate::ranges::tell_tables;
use crate::verdict::{Clause, Verdict};
use crate::walk::BLOCK;
use disk_logs::{Ends, find_all_ends};
use disk_spots::Spot;
use disk_versions::BEHIND;
use ds_base::NoMemory;
use ds_disk::{Disk, DiskError};
use fitting_records::{Summary, find_first_unfit, summarize};
use row_turns::order_laws;
use std::alloc::Global;

fn zeros(alloc: Global) -> Result<Vec<u8>, NoMemory>
    ensures { IfOk result (λ zeros. length zeros.items ≡ 65536) }
{
    Ok(vec![in alloc; 0u8; BLOCK]?)
}

// The first record that doesn't fit those before it, if they aren't known to fit each other.
fn find_unfit<D: Disk>(
    alloc: Global,
    disk: &mut D,
    ends: &[u64],
    fits: bool,
) -> Result<Option<Spot>, DiskError>
    requires { length ends.now ≡ 32 }
    ensures { Reads (D.contents disk.old) (D.contents disk.new) (D.faults disk.old) (D.faults disk.new) (λ found c. OfWholeLogs ends.now (λ logs. (fits ≡ true → AreTransactions logs) → AreFitTold found logs) c) result }
{
    if fits {
        Ok(None)
    } else {
        find_first_unfit(alloc, disk, ends)
    }
}

// The clauses from the third on, of logs of which the second holds.
fn check_fit<D: Disk>(
    alloc: Global,
    disk: &mut D,
    ends: &[u64],
    summary: &Summary,
    behind: u32,
    block: &mut [u8],
) -> Result<Verdict, DiskError>
    requires ends { length ends.now ≡ 32 }
    requires block { length block.old ≡ 65536 }
    ensures { Reads (D.contents disk.old) (D.contents disk.new) (D.faults disk.old) (D.faults disk.new) (λ v c. TellsFit ends.now summary.now behind v c) result }
{
    order_laws();
    let found = tell_tables(
        alloc,
        disk,
        ends,
        &summary.counts,
        summary.fits,
        summary.renews,
        behind,
        block,
    )?;
    check_found(alloc, disk, ends, summary.greatest, found)
}

// The clauses from the second on, of whole logs whose records end at these bytes.
fn check_ended<D: Disk>(
    alloc: Global,
    disk: &mut D,
    ends: &[u64],
    behind: u32,
) -> Result<Verdict, DiskError>
    requires { length ends.now ≡ 32 }
    ensures { Reads (D.contents disk.old) (D.contents disk.new) (D.faults disk.old) (D.faults disk.new) (λ v c. TellsEnded ends.now behind v c) result }
{
    let mut block = zeros(alloc)?;
    let summary = summarize(alloc, disk, ends, &mut block)?;
    let found = find_unfit(alloc, disk, ends, summary.fits)?;
    match found {
        Some(at) => Ok(unsound(Clause::Transactions, at)),
        None => check_fit(alloc, disk, ends, &summary, behind, &mut block),
    }
}

/// Whether the disk is sound, where so many pages are read behind the last one of each page set.
pub fn check_behind<D: Disk>(alloc: Global, disk: &mut D, behind: u32) -> Result<Verdict, DiskError>
    ensures { Reads (D.contents disk.old) (D.contents disk.new) (D.faults disk.old) (D.faults disk.new) (λ v c. IsTold c behind v) result }
{
    let found = find_all_ends(alloc, disk)?;
    match found {
        Ends::Broken { member, at } => Ok(unsound(Clause::WholeLogs, Spot::Log { member, at })),
        Ends::Whole { ends } => check_ended(alloc, disk, &ends, behind),
    }
}

/// Whether the disk is sound, and if it isn't, which clause fails first, and where; nothing is written.
///
/// The logs are read by blocks, and the pages one at a time. In memory are the pages and the rows of some tables at a time, as the
/// records make them, and what is open; of logs whose records don't fit each other also what is asked of a range of numbers at a
/// time. No list of records is held.
pub fn check_disk<D: Disk>(alloc: Global, disk: &mut D) -> Result<Verdict, DiskError>
    ensures { Reads (D.contents disk.old) (D.contents disk.new) (D.faults disk.old) (D.faults disk.new) (λ v c. IsTold c 1024 v) result }
{
    check_behind(alloc, disk, BEHIND)
}
