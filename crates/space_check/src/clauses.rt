//! The clauses from the third on, one after the other, by what was found of all tables.

ghost use Rattle.std.specs.Prelude.{◌≡◌, ◌+◌, ℕ, true, length, None, is_some, IfOk, IfSome, IsErrOf};
ghost use Rattle.ds_base.specs.Ids.{IsLrsn};
ghost use Rattle.ds_disk.specs.declared.disk.DiskError.TheVariants.{Failed};
ghost use Rattle.disk_walk.specs.Reading.{Reads};
ghost use Rattle.space_check.specs.Telling.{unsound, TellsAsked, TellsTabled, wrong_page};

use crate::told::{RangeFound, TablesTold};
use crate::verdict::{Breach, Clause, Verdict};
use disk_spots::Spot;
use disk_versions::placing_laws;
use ds_base::PageId;
use ds_disk::{Disk, DiskError};
use fitting_records::{find_drawn, find_number};
use kept_pages::find_first_unkept;
use row_turns::turn_laws;
use settled_changes::{are_left, number_laws};
use sound_disk::page_laws;
use std::alloc::Global;
use stood_rows::unstood_laws;

/// The verdict that this clause is the first that fails, at this spot.
pub fn unsound(clause: Clause, at: Spot) -> Verdict
    ensures { result ≡ unsound clause at }
{
    Verdict::Unsound {
        breach: Breach { clause, at },
    }
}

// The same where the spot was looked for. There is one where the clause fails.
fn unsound_at(clause: Clause, spot: Option<Spot>) -> Result<Verdict, DiskError>
    ensures told { IfOk result (λ v. IfSome spot (λ at. v ≡ unsound clause at)) }
    ensures some { IfOk result (λ v. is_some spot ≡ true) }
    ensures failed { IsErrOf result Failed → ⊥ }
{
    match spot {
        Some(at) => Ok(unsound(clause, at)),
        None => Err(DiskError::NoMemory),
    }
}

// The seventh clause, where those before it hold.
fn check_kept<D: Disk>(
    alloc: Global,
    disk: &mut D,
    ends: &[u64],
    great: u128,
    told: &TablesTold,
) -> Result<Verdict, DiskError>
    requires ends { length ends.now ≡ 32 }
    requires tables { wrong_page told.now ≡ None }
    requires turns { told.now.turns.out ≡ None }
    requires left { IsLrsn (great + told.now.turns.open) }
    ensures { Reads (D.contents disk.old) (D.contents disk.new) (D.faults disk.old) (D.faults disk.new) (λ v c. TellsTabled ends.now great told.now v c) result }
{
    page_laws();
    placing_laws();
    unstood_laws();
    turn_laws();
    let found = find_first_unkept(alloc, disk, ends)?;
    match found {
        Some(at) => Ok(unsound(Clause::Checkpoints, at)),
        None => Ok(Verdict::Sound {
            pages: told.pages,
            rows: told.turns.rows,
        }),
    }
}

// The sixth, where those before it hold.
fn check_numbers<D: Disk>(
    alloc: Global,
    disk: &mut D,
    ends: &[u64],
    great: u128,
    told: &TablesTold,
) -> Result<Verdict, DiskError>
    requires ends { length ends.now ≡ 32 }
    requires tables { wrong_page told.now ≡ None }
    requires turns { told.now.turns.out ≡ None }
    ensures { Reads (D.contents disk.old) (D.contents disk.new) (D.faults disk.old) (D.faults disk.new) (λ v c. TellsTabled ends.now great told.now v c) result }
{
    page_laws();
    placing_laws();
    unstood_laws();
    turn_laws();
    number_laws();
    if are_left(great, told.turns.open) {
        return check_kept(alloc, disk, ends, great, told);
    }
    let found = find_number(alloc, disk, ends, great)?;
    unsound_at(Clause::Numbers, found)
}

// The fifth, where those before it hold.
fn check_turns<D: Disk>(
    alloc: Global,
    disk: &mut D,
    ends: &[u64],
    great: u128,
    told: &TablesTold,
) -> Result<Verdict, DiskError>
    requires ends { length ends.now ≡ 32 }
    requires tables { wrong_page told.now ≡ None }
    ensures { Reads (D.contents disk.old) (D.contents disk.new) (D.faults disk.old) (D.faults disk.new) (λ v c. TellsTabled ends.now great told.now v c) result }
{
    page_laws();
    placing_laws();
    unstood_laws();
    turn_laws();
    match told.turns.out {
        None => check_numbers(alloc, disk, ends, great, told),
        Some(out) => {
            let found = find_drawn(alloc, disk, ends, out.number.number())?;
            unsound_at(Clause::Turns, found)
        }
    }
}

// The page of the first table that isn't whole, or else of the first record that didn't meet its row.
fn wrong_page(told: &TablesTold) -> Option<PageId>
    ensures { result ≡ wrong_page told.now }
{
    match told.unwhole {
        Some(id) => Some(id),
        None => told.unstood.map(|unstood| unstood.page),
    }
}

// The fourth, where those before it hold.
fn check_tables<D: Disk>(
    alloc: Global,
    disk: &mut D,
    ends: &[u64],
    great: u128,
    told: &TablesTold,
) -> Result<Verdict, DiskError>
    requires { length ends.now ≡ 32 }
    ensures { Reads (D.contents disk.old) (D.contents disk.new) (D.faults disk.old) (D.faults disk.new) (λ v c. TellsTabled ends.now great told.now v c) result }
{
    page_laws();
    placing_laws();
    unstood_laws();
    let page = wrong_page(told);
    match page {
        Some(id) => Ok(unsound(Clause::Tables, Spot::Page { id })),
        None => check_turns(alloc, disk, ends, great, told),
    }
}

/// The clauses from the third on, of logs of which the second holds, whose whole records end at these bytes, and whose greatest
/// number this is, by what was found of all tables.
pub fn check_found<D: Disk>(
    alloc: Global,
    disk: &mut D,
    ends: &[u64],
    great: u128,
    found: RangeFound,
) -> Result<Verdict, DiskError>
    requires { length ends.now ≡ 32 }
    ensures { Reads (D.contents disk.old) (D.contents disk.new) (D.faults disk.old) (D.faults disk.new) (λ v c. (behind : ℕ) → TellsAsked ends.now great behind found v c) result }
{
    placing_laws();
    match found {
        RangeFound::Unplaced { id } => Ok(unsound(Clause::Versions, Spot::Page { id })),
        RangeFound::Told { told } => check_tables(alloc, disk, ends, great, &told),
    }
}
