//! The patches of changes that are made for no transaction: formats, slots given, splits, and entries of branches.
ghost use Rattle.std.specs.Prelude.{◌≡◌, ◌<◌, ◌^◌, ◌-◌, Some, IfOk, IfSome};
ghost use Rattle.page_format.specs.Header.{entries_per_page};
ghost use Rattle.index_leaf.specs.Entries.{count_of, entries_of, IsRising};
ghost use Rattle.index_leaf.specs.Changes.{id_of, next_page_of, insert_patches};
ghost use Rattle.page_plans.specs.Looks.{goes_on, draws, MayGive};
ghost use Rattle.ds_model.specs.RecordBytes.{PatchesAreAllowed};
ghost use Rattle.page_plans.specs.Plans.{IsName, index_plan, heap_plan, slot_plan, slot_patches, split_plan, split_patches, branch_plan};

use crate::action::Look;
use crate::heap::{header_look, heap_format_look, heap_page_look};
use crate::index::{
    branch_look, full_page_look, index_format_look, index_header_look, leaf_look, split_page_look,
};
use crate::patches::append;
use ds_base::{Key, NoMemory, Place, TableId};
use heap_space::{format_heap, give};
use index_leaf::{Inserted, format_index, insert, split, take_next};
use page_format::{Page, Patches};
use std::alloc::Global;

fn goes_on(look: Look) -> bool
    ensures { result ≡ goes_on look }
{
    matches!(look, Look::Next { .. })
}

fn draws(look: Look) -> bool
    ensures { result ≡ draws look }
{
    matches!(look, Look::Draw)
}

/// A new index, where its three pages are still empty.
#[tactic(auto, using(crate::proofs::Allowing::index_format_is_allowed))]
pub fn index_plan(
    alloc: Global,
    table: TableId,
    header: &Page,
    branch: &Page,
    leaf: &Page,
) -> Result<Option<Patches>, NoMemory>
    ensures exact { IfOk result (λ plan. plan ≡ index_plan table header.now branch.now leaf.now) }
    ensures allowed { IfOk result (λ plan. IfSome plan PatchesAreAllowed) }
{
    let _number = table.number();
    if !goes_on(index_format_look(table, 0, header))
        || !goes_on(index_format_look(table, 1, branch))
        || !draws(index_format_look(table, 2, leaf))
    {
        return Ok(None);
    }
    Ok(Some(format_index(alloc, table)?))
}

/// A new heap, where its header page is still empty.
#[tactic(auto, using(crate::proofs::Allowing::heap_format_is_allowed))]
pub fn heap_plan(alloc: Global, table: TableId, header: &Page) -> Result<Option<Patches>, NoMemory>
    ensures exact { IfOk result (λ plan. plan ≡ heap_plan table header.now) }
    ensures allowed { IfOk result (λ plan. IfSome plan PatchesAreAllowed) }
{
    let _number = table.number();
    if !draws(heap_format_look(table, 0, header)) {
        return Ok(None);
    }
    Ok(Some(format_heap(alloc, table)?))
}

// What enters a key in a page that has room for it.
fn insert_patches(alloc: Global, page: &Page, key: Key, place: Place) -> Result<Patches, NoMemory>
    requires rising { IsRising (entries_of page.now) }
    requires room { count_of page.now < entries_per_page }
    requires name { IsName (id_of page.now) }
    ensures exact { IfOk result (λ patches. patches ≡ insert_patches page.now (record { key = key; place = place })) }
    ensures allowed { IfOk result PatchesAreAllowed }
{
    let _bytes = page.bytes();
    let Inserted::Done(patches) = insert(alloc, page, key, place)? else {
        unreachable!()
    };
    Ok(patches)
}

// The slot, and its entry in the leaf.
fn slot_patches(
    alloc: Global,
    table: TableId,
    key: Key,
    place: Place,
    leaf: &Page,
) -> Result<Patches, NoMemory>
    requires place { MayGive (Some place) }
    requires rising { IsRising (entries_of leaf.now) }
    requires room { count_of leaf.now < entries_per_page }
    requires name { IsName (id_of leaf.now) }
    ensures exact { IfOk result (λ patches. patches ≡ slot_patches table key place leaf.now) }
    ensures allowed { IfOk result PatchesAreAllowed }
{
    let _number = table.number();
    let _bytes = leaf.bytes();
    let mut patches = give(alloc, table, place, key)?;
    append(&mut patches, insert_patches(alloc, leaf, key, place)?)?;
    Ok(patches)
}

/// The next slot of the heap, for a key that its leaf hasn't.
#[tactic(auto, using(crate::proofs::Allowing::named_index))]
pub fn slot_plan(
    alloc: Global,
    table: TableId,
    key: Key,
    leaf: u32,
    limit: u32,
    header: &Page,
    rows: &Page,
    entries: &Page,
) -> Result<Option<Patches>, NoMemory>
    ensures exact { IfOk result (λ plan. plan ≡ slot_plan table key leaf limit header.now rows.now entries.now) }
    ensures allowed { IfOk result (λ plan. IfSome plan PatchesAreAllowed) }
{
    let _number = table.number();
    let Look::Next {
        place: Some(place),
        ..
    } = header_look(table, limit, header)
    else {
        return Ok(None);
    };
    if !goes_on(heap_page_look(table, leaf, Some(place), rows))
        || !draws(leaf_look(table, key, leaf, entries))
    {
        return Ok(None);
    }
    Ok(Some(slot_patches(alloc, table, key, place, entries)?))
}

// The header takes the next page, the full page keeps its first half, and the new page gets the second one.
fn split_patches(alloc: Global, header: &Page, left: &Page, next: u32) -> Result<Patches, NoMemory>
    requires next { next_page_of header.now < 2 ^ 32 - 1 }
    requires full { count_of left.now ≡ entries_per_page }
    requires header { IsName (id_of header.now) }
    requires name { IsName (id_of left.now) }
    ensures exact { IfOk result (λ patches. patches ≡ split_patches header.now left.now next) }
    ensures allowed { IfOk result PatchesAreAllowed }
{
    let _bytes = left.bytes();
    let halves = split(alloc, left, next)?;
    let mut patches = Patches::new(alloc);
    patches.push(take_next(alloc, header)?)?;
    append(&mut patches, halves.left)?;
    append(&mut patches, halves.right)?;
    Ok(patches)
}

/// The split of a page that is full, into the next free page, which is still empty.
#[tactic(auto, using(crate::proofs::Allowing::named_index))]
pub fn split_plan(
    alloc: Global,
    table: TableId,
    left: u32,
    header: &Page,
    full: &Page,
    fresh: &Page,
) -> Result<Option<Patches>, NoMemory>
    ensures exact { IfOk result (λ plan. plan ≡ split_plan table left header.now full.now fresh.now) }
    ensures allowed { IfOk result (λ plan. IfSome plan PatchesAreAllowed) }
{
    let _number = table.number();
    let Look::Next {
        place: Some(next),
        ..
    } = index_header_look(table, left, header)
    else {
        return Ok(None);
    };
    if !goes_on(full_page_look(table, left, Some(next), full))
        || !draws(split_page_look(table, Some(next), fresh))
    {
        return Ok(None);
    }
    Ok(Some(split_patches(alloc, header, full, next.page)?))
}

/// The entry of a leaf, in a branch that has room and doesn't lead to it yet.
#[tactic(auto, using(crate::proofs::Allowing::named_index))]
pub fn branch_plan(
    alloc: Global,
    table: TableId,
    branch: u32,
    low: Key,
    child: u32,
    page: &Page,
) -> Result<Option<Patches>, NoMemory>
    ensures exact { IfOk result (λ plan. plan ≡ branch_plan table branch low child page.now) }
    ensures allowed { IfOk result (λ plan. IfSome plan PatchesAreAllowed) }
{
    let _number = table.number();
    if !draws(branch_look(table, branch, low, child, page)) {
        return Ok(None);
    }
    let place = Place {
        page: child,
        slot: 0,
    };
    Ok(Some(insert_patches(alloc, page, low, place)?))
}
