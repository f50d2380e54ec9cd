//! Pages behind the patches of a record.

ghost use Rattle.std.specs.Prelude.{◌≡◌, IfOk};
ghost use Rattle.std.specs.List.{AllByRecursion};
ghost use Rattle.ds_model.specs.RecordBytes.{PatchIsAllowed};
ghost use Rattle.heap_space.specs.Written.{written};

use ds_base::{Lrsn, NoMemory, PageId};
use page_format::{Page, Patch};
use redone_pages::copy_of;
use std::alloc::Global;

/// The page of this name after those of the patches that are for it.
pub fn written(
    alloc: Global,
    page: &Page,
    id: PageId,
    patches: &[Patch],
    lrsn: Lrsn,
) -> Result<Page, NoMemory>
    requires { AllByRecursion PatchIsAllowed patches.now }
    ensures { IfOk result (λ behind. behind ≡ written id lrsn patches.now page.now) }
{
    let mut behind = copy_of(alloc, page)?;
    for patch in patches {
        if patch.page.is_same(id) {
            behind.apply(patch, lrsn);
        }
    }
    Ok(behind)
}
