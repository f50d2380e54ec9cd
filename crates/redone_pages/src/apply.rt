//! Changes of pages in a map of them.

ghost use Rattle.std.specs.Prelude.{◌≡◌, [], ◌∷◌, ◌<◌, OnOk, IfOk};
ghost use Rattle.std.specs.List.{AllByRecursion};
ghost use Rattle.ds_model.specs.RecordBytes.{IsAllowed, PatchIsAllowed};
ghost use Rattle.page_format.specs.Header.{slots_per_page};
ghost use Rattle.page_chain.specs.Chains.{row_patch, changes_of};
ghost use Rattle.redone_pages.specs.Held.{images_in, IsTaken, AreAfter};

use crate::range::TableRange;
use ds_base::{Lrsn, NoMemory, PageId};
use log_record::{Body, LogRecord, RowChange};
use page_format::{Page, Patch};
use page_redo::{page_changed, put_row};
use std::alloc::Global;
use std::collections::BTreeMap;

/// A copy of the page.
pub fn copy_of(alloc: Global, page: &Page) -> Result<Page, NoMemory>
    ensures { IfOk result (λ copy. copy ≡ page.now) }
{
    let mut copy = Page::zero(alloc)?;
    *copy.bytes_mut() = *page.bytes();
    Ok(copy)
}

// The page of this name, out of the map.
fn take_page(
    alloc: Global,
    pages: &mut BTreeMap<PageId, Page>,
    id: PageId,
) -> Result<Page, NoMemory>
    ensures page { IfOk result (λ page. page ≡ images_in pages.old.entries id) }
    ensures taken { IsTaken id pages.old.entries pages.new.entries }
{
    match pages.remove(&id) {
        Some(page) => Ok(page),
        None => Ok(Page::zero(alloc)?),
    }
}

fn apply_change(
    alloc: Global,
    range: &TableRange,
    pages: &mut BTreeMap<PageId, Page>,
    change: &RowChange,
    lrsn: Lrsn,
) -> Result<(), NoMemory>
    requires { change.now.place.slot < slots_per_page }
    ensures { OnOk result (AreAfter range.now lrsn (row_patch change.now ∷ []) pages.old.entries pages.new.entries) }
{
    let id = page_changed(change);
    if !range.has_page(id) {
        return Ok(());
    }
    let mut page = take_page(alloc, pages, id)?;
    put_row(
        &mut page,
        change.place.slot,
        change.key,
        change.after.as_ref(),
        lrsn,
    );
    pages.insert(id, page)?;
    Ok(())
}

fn apply_patch(
    alloc: Global,
    range: &TableRange,
    pages: &mut BTreeMap<PageId, Page>,
    patch: &Patch,
    lrsn: Lrsn,
) -> Result<(), NoMemory>
    requires { PatchIsAllowed patch.now }
    ensures { OnOk result (AreAfter range.now lrsn (patch.now ∷ []) pages.old.entries pages.new.entries) }
{
    if !range.has_page(patch.page) {
        return Ok(());
    }
    let mut page = take_page(alloc, pages, patch.page)?;
    page.apply(patch, lrsn);
    pages.insert(patch.page, page)?;
    Ok(())
}

fn apply_patches(
    alloc: Global,
    range: &TableRange,
    pages: &mut BTreeMap<PageId, Page>,
    patches: &[Patch],
    lrsn: Lrsn,
) -> Result<(), NoMemory>
    requires { AllByRecursion PatchIsAllowed patches.now }
    ensures { OnOk result (AreAfter range.now lrsn patches.now pages.old.entries pages.new.entries) }
{
    for patch in patches {
        apply_patch(alloc, range, pages, patch, lrsn)?;
    }
    Ok(())
}

/// Does the changes of the record in those of their pages that are of the tables. A page that the map lacks was all zeros.
pub fn apply_record(
    alloc: Global,
    range: &TableRange,
    pages: &mut BTreeMap<PageId, Page>,
    it: &LogRecord,
) -> Result<(), NoMemory>
    requires { IsAllowed it.now }
    ensures { OnOk result (AreAfter range.now it.now.lrsn (changes_of it.now.body) pages.old.entries pages.new.entries) }
{
    match &it.body {
        Body::RowChange { change } | Body::Compensation { change, .. } => {
            apply_change(alloc, range, pages, change, it.lrsn)
        }
        Body::System { patches } => apply_patches(alloc, range, pages, patches.as_slice(), it.lrsn),
        Body::Commit | Body::Ended | Body::Checkpoint { .. } | Body::RestartEnd => Ok(()),
    }
}
