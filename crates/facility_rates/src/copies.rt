//! The copies of pages that the commands of a cache make, without the cache.
ghost use Rattle.std.specs.Prelude.{◌≡◌, ◌<◌, length, IfOk};

use crate::walk::Walk;
use ds_base::NoMemory;
use page_format::Page;
use std::alloc::Global;

/// Copies so many pages, and one back for each fourth, from and to as many pages as there are entries.
///
/// The pages lie in memory as those of a cache do, and the same are copied in the same order as by `run_pages`.
pub fn run_copies(alloc: Global, entries: u32, walk: Walk, times: u32) -> Result<u64, NoMemory>
    ensures { IfOk result (λ count. count ≡ times) }
{
    let mut pages = zero_pages(alloc, entries)?;
    let mut page = Page::zero(alloc)?;
    for turn in 0..times {
        let at = walk.page_at(turn) as usize;
        if at < pages.len() {
            copy_out(&pages, at, &mut page);
            if turn % 4 == 0 {
                copy_in(&mut pages, at, &page);
            }
        }
    }
    Ok(times as u64)
}

fn copy_out(pages: &Vec<Page>, at: usize, page: &mut Page)
    requires { at < length pages.now.items }
{
    *page.bytes_mut() = *pages[at].bytes();
}

fn copy_in(pages: &mut Vec<Page>, at: usize, page: &Page)
    requires { at < length pages.old.items }
{
    *pages[at].bytes_mut() = *page.bytes();
}

fn zero_pages(alloc: Global, entries: u32) -> Result<Vec<Page>, NoMemory> {
    let mut pages = Vec::new(alloc);
    for _ in 0..entries {
        pages.push(Page::zero(alloc)?)?;
    }
    Ok(pages)
}
