//! The pages that records change.

ghost use Rattle.std.specs.Prelude.{◌≡◌, [], ◌∷◌, IfOk, OnOk};
ghost use Rattle.page_chain.specs.Chains.{row_patch};
ghost use Rattle.page_redo.specs.Pages.{has_page, with_page, pages_from, pages_of};

use ds_base::{NoMemory, PageId, Sequence};
use ds_model::{Body, LogRecord, RowChange};
use page_format::Patch;
use std::alloc::Global;

/// The page whose row the change is of.
pub fn page_changed(change: &RowChange) -> PageId
    ensures { result ≡ (row_patch change.now).page }
{
    change.table.heap_page(change.place.page)
}

fn has_page(pages: &[PageId], id: PageId) -> bool
    ensures { result ≡ has_page pages.now id }
{
    pages.iter().any(|page| page.is_same(id))
}

fn add_page(pages: &mut Sequence<PageId>, id: PageId) -> Result<(), NoMemory>
    ensures { OnOk result (pages.new ≡ with_page pages.old id) }
{
    if !has_page(pages.as_slice(), id) {
        pages.push(id)?;
    }
    Ok(())
}

fn pages_of_patches(alloc: Global, patches: &[Patch]) -> Result<Sequence<PageId>, NoMemory>
    ensures { IfOk result (λ pages. pages ≡ pages_from [] patches.now) }
{
    let mut pages = Sequence::new(alloc);
    for patch in patches {
        add_page(&mut pages, patch.page)?;
    }
    Ok(pages)
}

fn one_page(alloc: Global, page: PageId) -> Result<Sequence<PageId>, NoMemory>
    ensures { IfOk result (λ pages. pages ≡ page ∷ []) }
{
    let mut pages = Sequence::new(alloc);
    pages.push(page)?;
    Ok(pages)
}

/// The pages that a record changes, each once, in the order of its patches. A row change changes the page of its place.
pub fn pages_of(alloc: Global, it: &LogRecord) -> Result<Sequence<PageId>, NoMemory>
    ensures { IfOk result (λ pages. pages ≡ pages_of it.now) }
{
    match &it.body {
        Body::RowChange { change } | Body::Compensation { change, .. } => {
            one_page(alloc, page_changed(change))
        }
        Body::System { patches } => pages_of_patches(alloc, patches.as_slice()),
        Body::Commit | Body::Ended | Body::Checkpoint { .. } | Body::RestartEnd => {
            Ok(Sequence::new(alloc))
        }
    }
}
