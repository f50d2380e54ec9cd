//! What is read back of what is written, for who speaks of many pages. The functions do nothing: they are called
//! where their facts are needed.

ghost use Rattle.std.specs.Prelude.{◌≡◌, ◌≤◌, ◌<◌, ◌+◌, ◌^◌, ◌⊎◌, ℕ, List, length, Option, Some, None, IfSome};
ghost use Rattle.ds_base.specs.Values.{IsValue};
ghost use Rattle.ds_base.specs.declared.names.Place.{Place};
ghost use Rattle.page_format.specs.Fields.{page_size, count_at, number_in};
ghost use Rattle.ds_base.specs.Pages.{heap_page};
ghost use Rattle.heap_space.specs.Changes.{give_patches};
ghost use Rattle.heap_space.specs.Next.{last_page_of, given_of};
ghost use Rattle.heap_space.specs.Written.{written};
ghost use Rattle.heap_space.specs.Slots.{image, slot_in, content, fault_in};

/// A slot that holds an image has its key and its value, and no fault.
pub fn image_laws()
    ensures read { (key : ℕ) (value : Option (List ℕ)) → key < 2 ^ 64 → content (image key value) ≡ Some (key, value) }
    ensures allowed { (page : List ℕ) (slot key : ℕ) (value : Option (List ℕ)) → IfSome value IsValue → slot_in page slot ≡ image key value → fault_in page slot ≡ None }
{}

/// Writing the patches of a given slot names it in the header page and counts it in its page. The slot has its key and
/// no row, and the other slots stay.
pub fn give_laws()
    ensures last { (table : ℕ) (place : Place) (key lrsn : ℕ) (header : List ℕ) → 1 ≤ place.page → place.page < 2 ^ 32 → length header ≡ page_size → last_page_of (written (heap_page table 0) lrsn (give_patches table place key) header) ≡ place.page }
    ensures given { (table : ℕ) (place : Place) (key lrsn : ℕ) (header : List ℕ) → 1 ≤ place.page → place.slot < 31 → length header ≡ page_size → given_of (written (heap_page table 0) lrsn (give_patches table place key) header) ≡ place.slot + 1 }
    ensures slot { (table : ℕ) (place : Place) (key lrsn : ℕ) (page : List ℕ) → 1 ≤ place.page → place.slot < 31 → length page ≡ page_size → slot_in (written (heap_page table place.page) lrsn (give_patches table place key) page) place.slot ≡ image key None }
    ensures count { (table : ℕ) (place : Place) (key lrsn : ℕ) (page : List ℕ) → 1 ≤ place.page → place.slot < 31 → length page ≡ page_size → number_in (written (heap_page table place.page) lrsn (give_patches table place key) page) count_at 2 ≡ place.slot + 1 }
    ensures others { (table : ℕ) (place : Place) (key lrsn : ℕ) (page : List ℕ) (other : ℕ) → 1 ≤ place.page → place.slot < 31 → length page ≡ page_size → (other < place.slot) ⊎ (place.slot < other) → slot_in (written (heap_page table place.page) lrsn (give_patches table place key) page) other ≡ slot_in page other }
{}
