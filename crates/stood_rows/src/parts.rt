//! Whether the changes of one record stand, as far as the pages of a range go.

ghost use Rattle.std.specs.Prelude.{◌≡◌, ◌↔◌, ◌≤◌, true, IfOk, IsTrue};
ghost use Rattle.std.specs.List.{AllByRecursion};
ghost use Rattle.ds_base.specs.Pages.{heap_page};
ghost use Rattle.ds_model.specs.RecordBytes.{PatchIsAllowed};
ghost use Rattle.page_images.specs.Images.{after_change};
ghost use Rattle.page_chain.specs.Chains.{images_of};
ghost use Rattle.redone_pages.specs.Ranges.{has_table, has_page, HasPage};
ghost use Rattle.sound_disk.specs.Rows_there.{Stood};
ghost use Rattle.heap_rows.specs.Left.{AreLeft};
ghost use Rattle.stood_rows.specs.Owners.{StayOn};
ghost use Rattle.stood_rows.specs.Standing.{StandsIn};
ghost use Rattle.stood_rows.specs.Found.{IsRowTold, ArePatchesTold};

use crate::owners::owners_stay;
use crate::patches::written;
use crate::slot::stands;
use crate::unstood::Unstood;
use ds_base::{Lrsn, NoMemory, PageId};
use heap_rows::LeftRows;
use log_record::RowChange;
use page_format::Patch;
use page_redo::page_changed;
use redone_pages::RedonePages;
use std::alloc::Global;

// Whether the change meets its row in its page as the records left it.
fn is_met(alloc: Global, made: &RedonePages, change: &RowChange) -> Result<bool, NoMemory>
    requires { HasPage made.now.range (heap_page change.now.table change.now.place.page) }
    ensures { IfOk result (λ met. IsTrue met ↔ StandsIn (images_of made.now.records (heap_page change.now.table change.now.place.page)) change.now) }
{
    let id = page_changed(change);
    let page = made.image(alloc, id)?;
    Ok(stands(&page, change))
}

// Whether the change of a row of a table of the range stood.
fn stood(
    alloc: Global,
    made: &RedonePages,
    rows: &LeftRows,
    change: &RowChange,
) -> Result<bool, NoMemory>
    requires page { HasPage made.now.range (heap_page change.now.table change.now.place.page) }
    requires table { has_table rows.now.range change.now.table ≡ true }
    ensures { IfOk result (λ yes. AreLeft made.now.records rows.now → IsTrue yes ↔ Stood made.now.records change.now) }
{
    if rows.tells(change) {
        is_met(alloc, made, change)
    } else {
        Ok(false)
    }
}

/// The change of a row, if its page is of the range and it didn't stand, as one of the record at this place.
pub fn find_in_change(
    alloc: Global,
    made: &RedonePages,
    rows: &LeftRows,
    at: u64,
    change: &RowChange,
) -> Result<Option<Unstood>, NoMemory>
    requires table { 1 ≤ change.now.table }
    requires range { made.now.range ≡ rows.now.range }
    ensures { IfOk result (λ found. AreLeft made.now.records rows.now → IsRowTold (has_page made.now.range) made.now.records at change.now found) }
{
    if !rows.range.has_table(change.table) {
        return Ok(None);
    }
    let yes = stood(alloc, made, rows, change)?;
    if yes {
        Ok(None)
    } else {
        Ok(Some(Unstood {
            index: at,
            patch: 0,
            page: page_changed(change),
        }))
    }
}

// Whether the slots of the page, if it is one of a heap, stay their keys' behind the patches.
fn stay_on_page(
    alloc: Global,
    made: &RedonePages,
    id: PageId,
    patches: &[Patch],
    lrsn: Lrsn,
) -> Result<bool, NoMemory>
    requires patches { AllByRecursion PatchIsAllowed patches.now }
    requires set { (1 ≤ id.set) × (id.set ≤ 128) }
    requires page { HasPage made.now.range id }
    ensures { IfOk result (λ stay. IsTrue stay ↔ StayOn (images_of made.now.records) (after_change lrsn patches.now (images_of made.now.records)) id) }
{
    if id.set % 2 == 0 {
        return Ok(true);
    }
    let page = made.image(alloc, id)?;
    let behind = written(alloc, &page, id, patches, lrsn)?;
    Ok(owners_stay(&page, &behind))
}

// The same of one of the patches, if its page is of the range.
fn stays(
    alloc: Global,
    made: &RedonePages,
    patch: &Patch,
    patches: &[Patch],
    lrsn: Lrsn,
) -> Result<bool, NoMemory>
    requires patches { AllByRecursion PatchIsAllowed patches.now }
    requires patch { PatchIsAllowed patch.now }
    ensures { IfOk result (λ stay. IsTrue stay ↔ (has_page made.now.range patch.now.page ≡ true → StayOn (images_of made.now.records) (after_change lrsn patches.now (images_of made.now.records)) patch.now.page)) }
{
    if made.range().has_page(patch.page) {
        stay_on_page(alloc, made, patch.page, patches, lrsn)
    } else {
        Ok(true)
    }
}

/// The first of the patches, of the record at this place, whose page is of the range, and has a slot behind all of them that isn't
/// the key's to which it was given.
///
/// It takes time in the number of the patches times the logarithm of the number of pages, and in the square of the number of those
/// for one page.
pub fn find_in_patches(
    alloc: Global,
    made: &RedonePages,
    at: u64,
    patches: &[Patch],
    lrsn: Lrsn,
) -> Result<Option<Unstood>, NoMemory>
    requires { AllByRecursion PatchIsAllowed patches.now }
    ensures { IfOk result (λ found. ArePatchesTold (has_page made.now.range) made.now.records at lrsn patches.now found) }
{
    for k in 0..patches.len() {
        let patch = &patches[k];
        let stay = stays(alloc, made, patch, patches, lrsn)?;
        if !stay {
            return Ok(Some(Unstood {
                index: at,
                patch: k as u64,
                page: patch.page,
            }));
        }
    }
    Ok(None)
}
