ghost use Rattle.std.specs.Prelude.{◌≡◌, None, IfOk};
ghost use Rattle.ds_model.specs.RecordBytes.{ChangeFits};
ghost use Rattle.group_restart.specs.Undo.{undo_fault, undone_page, undoing};

use crate::append::Append;
use crate::records::{compensation, ended};
use ds_base::{Lrsn, NoMemory};
use ds_model::RowChange;
use page_format::Page;
use page_redo::{page_changed, row_fault, undo_row};
use restart_plan::Undo;
use std::alloc::Global;

// Where the kind of a page stands.
const KIND_AT: u16 = 4;

/// Where a page shows that the row of the change isn't there. A header page has no rows.
#[tactic(auto, unfolding(crate::specs::Undo::undo_fault))]
pub fn undo_fault(page: &Page, change: &RowChange) -> Option<u16>
    ensures exact { result ≡ undo_fault change.now page.now }
    ensures fits { result ≡ None → ChangeFits change.now }
{
    if let Some(at) = row_fault(page, page_changed(change), change.place.slot, change.key) {
        return Some(at);
    }
    if change.place.page == 0 {
        return Some(KIND_AT);
    }
    None
}

/// Takes the change back in its page.
#[tactic(auto, unfolding(crate::specs::Undo::undo_fault, crate::specs::Undo::undone_page))]
pub fn undo_page(page: &mut Page, change: &RowChange, lrsn: Lrsn)
    requires { undo_fault change.now page.old ≡ None }
    ensures { page.new ≡ undone_page change.now lrsn page.old }
{
    let Ok(()) = undo_row(page, page_changed(change), change, lrsn) else {
        unreachable!()
    };
}

/// The compensation with this number, and behind the last one of the transaction its Ended record.
pub fn undoing(alloc: Global, undo: &Undo, lrsn: Lrsn) -> Result<Append, NoMemory>
    requires { ChangeFits undo.now.change }
    ensures { IfOk result (λ a. a ≡ undoing undo.now lrsn) }
{
    let append = Append::new(alloc).with(compensation(undo, lrsn))?;
    if undo.is_last {
        append.with(ended(lrsn, undo.tran))
    } else {
        Ok(append)
    }
}
