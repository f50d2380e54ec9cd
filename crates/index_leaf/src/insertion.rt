ghost use Rattle.std.specs.Prelude.{◌≡◌, ℕ, ◌+◌, ◌<◌, ◌≤◌, length, IfOk, OnErr};
ghost use Rattle.page_format.specs.Fields.{page_size};
ghost use Rattle.page_format.specs.Header.{entries_per_page};
ghost use Rattle.index_leaf.specs.Entries.{count_of, entries_of, IsRising};
ghost use Rattle.index_leaf.specs.Changes.{moved_patch, inserted, Enters};

use crate::changes::{count_patch, id_of, put_entry};
use crate::fields::{bytes_of, count};
use crate::growth::Inserted;
use crate::layout::{ENTRY_WIDTH, Entry, FIRST_ENTRY_AT};
use crate::search::entries_upto;
use ds_base::{Bytes, Key, NoMemory, Place};
use page_format::{ENTRIES_PER_PAGE, Page, Patch, Patches};
use std::alloc::Global;

// The patch that puts the entry before the one at a place, and moves all from that one on.
#[tactic(auto, unfolding(crate::specs::Changes::moved_patch))]
fn moved_patch(alloc: Global, page: &Page, entry: Entry, at: usize) -> Result<Patch, NoMemory>
    requires within { at ≤ count_of page.now }
    requires room { count_of page.now < entries_per_page }
    ensures { IfOk result (λ p. p ≡ moved_patch page.now entry at) }
{
    let from = FIRST_ENTRY_AT + ENTRY_WIDTH * at;
    let to = FIRST_ENTRY_AT + ENTRY_WIDTH * count(page) as usize;
    let mut bytes = Bytes::new(alloc);
    put_entry(&mut bytes, entry)?;
    bytes.extend(&bytes_of(page)[from..to])?;
    Ok(Patch {
        page: id_of(page),
        offset: from as u16,
        bytes,
    })
}

// What puts the entry into the page.
fn plan_insertion(alloc: Global, page: &Page, entry: Entry) -> Result<Inserted, NoMemory>
    requires rising { IsRising (entries_of page.now) }
    requires room { count_of page.now ≤ entries_per_page }
    ensures value { IfOk result (λ i. i ≡ inserted page.now entry) }
    ensures err { OnErr result (count_of page.now < entries_per_page) }
    ensures whole { length page.now ≡ page_size }
{
    let id = id_of(page);
    let count = count(page);
    if count == ENTRIES_PER_PAGE {
        return Ok(Inserted::MustSplit);
    }
    let at = entries_upto(page, entry.key);
    let mut patches = Patches::new(alloc);
    patches.push(count_patch(alloc, id, count + 1)?)?;
    patches.push(moved_patch(alloc, page, entry, at)?)?;
    Ok(Inserted::Done(patches))
}

/// Puts an entry of a key that has none into a branch or leaf page whose keys rise. A full page takes no memory.
pub fn insert(alloc: Global, page: &Page, key: Key, place: Place) -> Result<Inserted, NoMemory>
    requires rising { IsRising (entries_of page.now) }
    requires room { count_of page.now ≤ entries_per_page }
    ensures value { IfOk result (λ i. i ≡ inserted page.now (record { key = key; place = place })) }
    ensures entries { IfOk result (λ i. Enters page.now (record { key = key; place = place }) i) }
    ensures err { OnErr result (count_of page.now < entries_per_page) }
{
    plan_insertion(alloc, page, Entry { key, place })
}
