ghost use Rattle.std.specs.Prelude.{◌≡◌, ℕ, ◌+◌, ◌*◌, ◌<◌, ◌≤◌, ◌^◌, List, slice_index, IfOk, length};
ghost use Rattle.page_format.specs.Header.{entries_per_page};
ghost use Rattle.page_format.specs.Fields.{page_size, kind_at};
ghost use Rattle.index_leaf.specs.Entries.{low_at, high_at, entry_width, first_entry_at, count_of, entries_of};
ghost use Rattle.index_leaf.specs.Changes.{patch_of, id_of, half, zeros, entry_offset, link_bytes, fields_bytes, half_bytes, low_of_split, right_id, left_patches, right_patches, all_patched, IsLeftOf, IsRightOf};

use crate::changes::{count_patch, front_patch, id_of, make_patch, spell_u32, spell_u64};
use crate::fields::{bytes_of, entry_at};
use crate::growth::Split;
use crate::layout::{ENTRY_WIDTH, FIRST_ENTRY_AT, HIGH_AT, KIND_AT, LOW_AT, RIGHT_AT};
use ds_base::{Bytes, Key, NoMemory, PageId};
use page_format::{PAGE_SIZE, Page, Patch, Patches};
use std::alloc::Global;

// How many entries stay in the left page.
const HALF: usize = 126;

const SECOND_HALF_AT: usize = FIRST_ENTRY_AT + ENTRY_WIDTH * HALF;

// The patch that makes this the high key and the page to the right.
#[tactic(auto, unfolding(crate::specs::Changes::link_bytes))]
fn link_patch(alloc: Global, page: PageId, high: Key, right: u32) -> Result<Patch, NoMemory>
    ensures { IfOk result (λ p. p ≡ patch_of page high_at (link_bytes high right)) }
{
    let mut bytes = Bytes::new(alloc);
    bytes.extend(&spell_u64(high))?;
    bytes.extend(&[1, 0, 0, 0])?;
    bytes.extend(&spell_u32(right))?;
    let offset = HIGH_AT as u16;
    Ok(Patch {
        page,
        offset,
        bytes,
    })
}

// The patch that zeroes the second half of the entries.
#[tactic(auto, unfolding(crate::specs::Changes::zeros))]
fn zeros_patch(alloc: Global, page: PageId) -> Result<Patch, NoMemory>
    ensures { IfOk result (λ p. p ≡ patch_of page (entry_offset half) (zeros (entry_width * half))) }
{
    let zeros = [0; ENTRY_WIDTH * HALF];
    make_patch(alloc, page, SECOND_HALF_AT as u16, &zeros)
}

fn left_patches(
    alloc: Global,
    left: &Page,
    low: Key,
    right_number: u32,
) -> Result<Patches, NoMemory>
    requires { low ≡ low_of_split left.now }
    ensures { IfOk result (λ p. p ≡ left_patches left.now right_number) }
{
    let page = id_of(left);
    let mut patches = Patches::new(alloc);
    patches.push(count_patch(alloc, page, HALF as u16)?)?;
    patches.push(link_patch(alloc, page, low, right_number)?)?;
    patches.push(zeros_patch(alloc, page)?)?;
    Ok(patches)
}

// The low key of the right page, and the high key and right number of the left one.
#[tactic(auto, unfolding(crate::specs::Changes::fields_bytes))]
fn fields_patch(alloc: Global, left: &Page, page: PageId, low: Key) -> Result<Patch, NoMemory>
    requires { low ≡ low_of_split left.now }
    ensures { IfOk result (λ p. p ≡ patch_of page low_at (fields_bytes left.now)) }
{
    let mut bytes = Bytes::new(alloc);
    bytes.extend(&spell_u64(low))?;
    bytes.extend(&bytes_of(left)[HIGH_AT..RIGHT_AT + 4])?;
    let offset = LOW_AT as u16;
    Ok(Patch {
        page,
        offset,
        bytes,
    })
}

// The second half of the entries.
#[tactic(auto, unfolding(crate::specs::Changes::half_bytes))]
fn half_patch(alloc: Global, left: &Page, page: PageId) -> Result<Patch, NoMemory>
    ensures { IfOk result (λ p. p ≡ patch_of page first_entry_at (half_bytes left.now)) }
{
    make_patch(
        alloc,
        page,
        FIRST_ENTRY_AT as u16,
        &bytes_of(left)[SECOND_HALF_AT..PAGE_SIZE],
    )
}

fn right_patches(
    alloc: Global,
    left: &Page,
    low: Key,
    right_number: u32,
) -> Result<Patches, NoMemory>
    requires { low ≡ low_of_split left.now }
    ensures { IfOk result (λ p. p ≡ right_patches left.now right_number) }
{
    let page = PageId {
        set: id_of(left).set,
        number: right_number,
    };
    let kind = bytes_of(left)[KIND_AT];
    let mut patches = Patches::new(alloc);
    patches.push(front_patch(alloc, kind, page)?)?;
    patches.push(count_patch(alloc, page, HALF as u16)?)?;
    patches.push(fields_patch(alloc, left, page, low)?)?;
    patches.push(half_patch(alloc, left, page)?)?;
    Ok(patches)
}

// What splits the page.
fn plan_split(alloc: Global, left: &Page, right_number: u32) -> Result<Split, NoMemory>
    requires { count_of left.now ≡ entries_per_page }
    ensures left { IfOk result (λ s. s.left ≡ left_patches left.now right_number) }
    ensures right { IfOk result (λ s. s.right ≡ right_patches left.now right_number) }
    ensures low { IfOk result (λ s. s.low ≡ low_of_split left.now) }
    ensures range { low_of_split left.now < 2 ^ 64 }
    ensures whole { length left.now ≡ page_size }
{
    let low = entry_at(bytes_of(left), HALF).key;
    Ok(Split {
        left: left_patches(alloc, left, low, right_number)?,
        right: right_patches(alloc, left, low, right_number)?,
        low,
    })
}

/// Splits a page of 252 entries: those from the 127th on go to a new page of this number, which is all zeros.
pub fn split(alloc: Global, left: &Page, right_number: u32) -> Result<Split, NoMemory>
    requires { count_of left.now ≡ entries_per_page }
    ensures left { IfOk result (λ s. s.left ≡ left_patches left.now right_number) }
    ensures right { IfOk result (λ s. s.right ≡ right_patches left.now right_number) }
    ensures low { IfOk result (λ s. s.low ≡ low_of_split left.now) }
    ensures left_page { IfOk result (λ s. IsLeftOf left.now (all_patched left.now s.left) s.low right_number) }
    ensures right_page { IfOk result (λ s. (fresh : List ℕ) → length fresh ≡ page_size → IsRightOf left.now (all_patched fresh s.right) s.low) }
{
    plan_split(alloc, left, right_number)
}
