ghost use Rattle.std.specs.Prelude.{◌≡◌, [], ◌∷◌, ◌<◌};
ghost use Rattle.std.specs.List.{AllByRecursion};
ghost use Rattle.ds_model.specs.RecordBytes.{BodyFits, PatchIsAllowed};
ghost use Rattle.page_format.specs.Header.{slots_per_page};
ghost use Rattle.heap_space.specs.Written.{written};
ghost use Rattle.page_chain.specs.Chains.{row_patch, after_record};

use ds_base::{Lrsn, PageId};
use ds_model::{Body, LogRecord, RowChange};
use page_format::{Page, Patch};
use page_redo::{page_changed, put_row};

fn apply_change(page: &mut Page, id: PageId, change: &RowChange, lrsn: Lrsn)
    requires { change.now.place.slot < slots_per_page }
    ensures { page.new ≡ written id lrsn (row_patch change.now ∷ []) page.old }
{
    if page_changed(change).is_same(id) {
        put_row(
            page,
            change.place.slot,
            change.key,
            change.after.as_ref(),
            lrsn,
        );
    }
}

fn apply_patches(page: &mut Page, id: PageId, patches: &[Patch], lrsn: Lrsn)
    requires { AllByRecursion PatchIsAllowed patches.now }
    ensures { page.new ≡ written id lrsn patches.now page.old }
{
    for patch in patches {
        if patch.page.is_same(id) {
            page.apply(patch, lrsn);
        }
    }
}

/// The page of this name after the record.
pub fn apply_record(page: &mut Page, id: PageId, it: &LogRecord)
    requires { BodyFits it.now.version it.now.body }
    ensures { page.new ≡ after_record id page.old it.now }
{
    match &it.body {
        Body::RowChange { change } | Body::Compensation { change, .. } => {
            apply_change(page, id, change, it.lrsn)
        }
        Body::System { patches } => apply_patches(page, id, patches.as_slice(), it.lrsn),
        Body::Commit | Body::Ended | Body::Checkpoint { .. } | Body::RestartEnd => {}
    }
}
