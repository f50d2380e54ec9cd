//! Pages brought forward by records.

ghost use Rattle.std.specs.Prelude.{◌≡◌, ◌+◌, ◌≤◌, true, false, if◌then◌else◌, length, filter, Ok};
ghost use Rattle.page_format.specs.Fields.{page_size};
ghost use Rattle.heap_space.specs.Written.{written, after_patch};
ghost use Rattle.ds_base.specs.Pages.{same_page};
ghost use Rattle.page_chain.specs.Chains.{row_patch};
ghost use Rattle.page_redo.specs.Rows.{change_fault};
ghost use Rattle.page_redo.specs.Forward.{lies_in_page, has_patch, outcome_of, after_one, forward_from, brought_forward};

use crate::fault::FieldFault;
use crate::pages::page_changed;
use crate::rows::change_row;
use ds_base::{Lrsn, PageId};
use ds_model::{Body, LogRecord, RowChange};
use page_format::{PAGE_SIZE, Page, Patch};

fn lies_in_page(patch: &Patch) -> bool
    ensures exact { result ≡ lies_in_page patch.now }
    ensures within { result ≡ true → patch.now.offset + length patch.now.bytes ≤ page_size }
{
    let size = patch.bytes.len();
    size <= PAGE_SIZE && patch.offset as usize + size <= PAGE_SIZE
}

// Makes those of the patches that are for the page, and answers whether there was one.
fn apply_patches(page: &mut Page, id: PageId, patches: &[Patch], lrsn: Lrsn) -> bool
    ensures page { page.new ≡ written id lrsn (filter lies_in_page patches.now) page.old }
    ensures some { result ≡ has_patch id (filter lies_in_page patches.now) }
    ensures none { result ≡ false → page.new ≡ page.old }
{
    let mut has_one = false;
    for patch in patches {
        if lies_in_page(patch) && patch.page.is_same(id) {
            page.apply(patch, lrsn);
            has_one = true;
        }
    }
    has_one
}

// Makes the row change where it is one of the page.
fn bring_change(
    page: &mut Page,
    id: PageId,
    change: &RowChange,
    lrsn: Lrsn,
) -> Result<bool, FieldFault>
    ensures outcome { result ≡ (if same_page (row_patch change.now).page id then outcome_of (change_fault id change.now page.old) else Ok false) }
    ensures page { result ≡ Ok true → page.new ≡ after_patch lrsn page.old (row_patch change.now) }
    ensures kept { (result ≡ Ok true → ⊥) → page.new ≡ page.old }
{
    if !page_changed(change).is_same(id) {
        return Ok(false);
    }
    change_row(page, id, change, lrsn)?;
    Ok(true)
}

/// Applies a record to the page of this name where it changes it and the record's number is above the page's: all its
/// patches for the page at once. Whether it was applied, or the first field in the way, and then the page stays as it is.
///
/// In the way of a row change is a page of another kind, or a slot that isn't given to its key or has fields that can't
/// stand there. A patch that doesn't lie in its page stands in no log, and isn't made.
pub fn bring_record(page: &mut Page, id: PageId, it: &LogRecord) -> Result<bool, FieldFault>
    ensures outcome { result ≡ (after_one id page.old it.now).outcome }
    ensures page { page.new ≡ (after_one id page.old it.now).page }
{
    if it.lrsn.number() <= page.lrsn().number() {
        return Ok(false);
    }
    match &it.body {
        Body::RowChange { change } | Body::Compensation { change, .. } => {
            bring_change(page, id, change, it.lrsn)
        }
        Body::System { patches } => Ok(apply_patches(page, id, patches.as_slice(), it.lrsn)),
        Body::Commit | Body::Ended | Body::Checkpoint { .. } | Body::RestartEnd => Ok(false),
    }
}

// The page, brought forward by these records, whatever its header says.
fn bring_records(page: &mut Page, id: PageId, records: &[LogRecord]) -> Result<bool, FieldFault>
    ensures outcome { result ≡ (forward_from id page.old false records.now).outcome }
    ensures page { page.new ≡ (forward_from id page.old false records.now).page }
{
    let mut is_raised = false;
    for record in records {
        is_raised |= bring_record(page, id, record)?;
    }
    Ok(is_raised)
}

/// Brings the page of this name forward: applies the records that change it and are above its number, in their order.
/// Whether there was one, or the first field in the way: of the header, or of a slot whose row a record changes. The page
/// is then as the records before it have left it.
///
/// The records are in the order of their numbers. Those of other pages may stand among them.
pub fn bring_forward(page: &mut Page, id: PageId, records: &[LogRecord]) -> Result<bool, FieldFault>
    ensures outcome { result ≡ (brought_forward id page.old records.now).outcome }
    ensures page { page.new ≡ (brought_forward id page.old records.now).page }
{
    if let Err(fault) = page.read_header(id) {
        return Err(FieldFault { at: fault.at });
    }
    bring_records(page, id, records)
}
