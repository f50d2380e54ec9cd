ghost use Rattle.std.specs.Prelude.{◌≡◌, ◌≤◌, IfOk};
ghost use Rattle.page_format.specs.Header.{entries_per_page};
ghost use Rattle.index_leaf.specs.Entries.{count_of, entries_of};

use ds_base::NoMemory;
use index_leaf::{Entry, count, entry};
use page_format::Page;
use std::alloc::Global;

/// The entries of a branch or a leaf, in their order.
pub fn entries_in(alloc: Global, page: &Page) -> Result<Vec<Entry>, NoMemory>
    requires { count_of page.now ≤ entries_per_page }
    ensures { IfOk result (λ entries. entries.items ≡ entries_of page.now) }
{
    let mut entries = Vec::new(alloc);
    for n in 0..count(page) {
        let Some((key, place)) = entry(page, n) else {
            return Ok(entries);
        };
        entries.push(Entry { key, place })?;
    }
    Ok(entries)
}
