//! The pages of the disk as a function of their names: what a change makes of each of them, and what their headers say.
//!
//! The crate has definitions and proofs alone. Its functions do nothing: each is called where its facts are needed.
#![tactic(auto)]

ghost use Rattle.std.specs.Prelude.{◌≡◌, ℕ, ◌<◌, ◌≤◌, ◌^◌, ◌+◌, ◌==◌, [], ◌∷◌, ◌++◌, true, false, List, length, slice_index, Ok};
ghost use Rattle.ds_base.specs.declared.names.PageId.{PageId};
ghost use Rattle.byteorder.specs.Endian.{big_number};
ghost use Rattle.page_format.specs.Fields.{page_size, mark_at, kind_at, count_at, patched, number_in, lrsn_of, is_old, set_lrsn, renewed};
ghost use Rattle.page_format.specs.Header.{kind_of, may_have, most, is_zeros, empty_header, header_of};
ghost use Rattle.page_format.specs.declared.patch.Patch.{Patch};
ghost use Rattle.ds_base.specs.Pages.{same_page, heap_page, index_page};
ghost use Rattle.heap_space.specs.Changes.{front};
ghost use Rattle.heap_space.specs.Written.{after_patch, written};
ghost use Rattle.index_leaf.specs.Changes.{front_of, id_of};
ghost use Rattle.index_leaf.specs.Nodes.{all_stamped, patches_for};
ghost use Rattle.page_images.specs.Images.{zeros, front_width, HasFront, IsStamped, IsFree};
ghost use Rattle.page_images.specs.Parts.{part, AreApart, IsOffStamp, Lies, AreBehindFront, AreWithin};

/// Pages of different tables, of the heap and of the index, and of different numbers have different names.
pub fn name_laws()
    ensures heaps { (t u m n : ℕ) → 1 ≤ t → 1 ≤ u → (t ≡ u → ⊥) → same_page (heap_page t m) (heap_page u n) ≡ false }
    ensures indexes { (t u m n : ℕ) → (t ≡ u → ⊥) → same_page (index_page t m) (index_page u n) ≡ false }
    ensures heap_or_index { (t u m n : ℕ) → 1 ≤ t → same_page (heap_page t m) (index_page u n) ≡ false }
    ensures index_or_heap { (t u m n : ℕ) → 1 ≤ t → same_page (index_page u n) (heap_page t m) ≡ false }
    ensures heap_numbers { (t m n : ℕ) → same_page (heap_page t m) (heap_page t n) ≡ (m == n) }
    ensures index_numbers { (t m n : ℕ) → same_page (index_page t m) (index_page t n) ≡ (m == n) }
{}

/// A change writes to a page the patches that are for it, in their order, each with its stamp. A page that has none stays
/// as it was.
pub fn written_laws()
    ensures stamped { (id : PageId) (lrsn : ℕ) (ps : List Patch) (page : List ℕ) → written id lrsn ps page ≡ all_stamped lrsn page (patches_for id ps) }
    ensures both { (id : PageId) (lrsn : ℕ) (ps qs : List Patch) (page : List ℕ) → written id lrsn (ps ++ qs) page ≡ written id lrsn qs (written id lrsn ps page) }
    ensures free { (id : PageId) (lrsn : ℕ) (ps : List Patch) (page : List ℕ) → IsFree id ps → written id lrsn ps page ≡ page }
    ensures free_both { (id : PageId) (ps qs : List Patch) → IsFree id ps → IsFree id qs → IsFree id (ps ++ qs) }
{}

/// After a patch and its stamp a page is as long as it was, has the bytes of the patch at their place and the LRSN of the
/// change in its header, and all other bytes as they were.
pub fn part_laws()
    ensures whole { (lrsn : ℕ) (page : List ℕ) (p : Patch) → Lies page p → length (after_patch lrsn page p) ≡ page_size }
    ensures put { (lrsn : ℕ) (page : List ℕ) (p : Patch) → Lies page p → IsOffStamp p.offset (length p.bytes) → part p.offset (length p.bytes) (after_patch lrsn page p) ≡ p.bytes }
    ensures kept { (lrsn : ℕ) (page : List ℕ) (p : Patch) (at width : ℕ) → Lies page p → IsOffStamp at width → AreApart at width p.offset (length p.bytes) → part at width (after_patch lrsn page p) ≡ part at width page }
    ensures number { (page : List ℕ) (at width : ℕ) → number_in page at width ≡ big_number width (part at width page) }
    ensures stamp { (lrsn : ℕ) (page : List ℕ) → length page ≡ page_size → lrsn < 2 ^ 80 → lrsn_of (set_lrsn page lrsn) ≡ lrsn }
{}

/// A page of version 1 that is written in version 2 has the header that it had: its kind, the LRSN of its last change and its
/// count, or the field that can't stand there. All bytes but those of the version and the LRSN are as they were.
pub fn renewal_laws()
    ensures header { (page : List ℕ) (id : PageId) → length page ≡ page_size → is_old page ≡ true → lrsn_of page < 2 ^ 80 → header_of (renewed page) id ≡ header_of page id }
    ensures kept { (page : List ℕ) (at width : ℕ) → length page ≡ page_size → IsOffStamp at width → part at width (renewed page) ≡ part at width page }
{}

/// A page that begins with its front and was stamped has the header that its kind, its LRSN and its count say, and bears
/// its name. A page of zeros is empty.
pub fn header_laws()
    ensures agree { (kind : ℕ) (id : PageId) → front kind id ≡ front_of kind id }
    ensures empty { (id : PageId) → header_of zeros id ≡ Ok empty_header }
    ensures written { (page : List ℕ) (id : PageId) (kind : ℕ) → HasFront page id kind → is_zeros page ≡ false }
    ensures zeros { (is_zeros zeros ≡ true) × (length zeros ≡ page_size) × ((k : ℕ) → slice_index zeros k ≡ 0) × ((at width : ℕ) → number_in zeros at width ≡ 0) }
    ensures header { (page : List ℕ) (id : PageId) (kind : ℕ) → HasFront page id kind → IsStamped page → number_in page count_at 2 ≤ most (kind_of kind) → may_have id (kind_of kind) ≡ true → id.set < 2 ^ 16 → id.number < 2 ^ 32 → header_of page id ≡ Ok (record { kind = kind_of kind; lrsn = lrsn_of page; count = number_in page count_at 2 }) }
    ensures kind { (page : List ℕ) (id : PageId) (kind : ℕ) → HasFront page id kind → slice_index page kind_at ≡ kind }
    ensures name { (page : List ℕ) (id : PageId) (kind : ℕ) → HasFront page id kind → id.set < 2 ^ 16 → id.number < 2 ^ 32 → id_of page ≡ id }
{}

/// The front patch gives a whole page its front, and patches behind the front keep it. A page that was changed has the
/// LRSN of its change.
pub fn front_laws()
    ensures made { (lrsn : ℕ) (page : List ℕ) (id : PageId) (kind : ℕ) → length page ≡ page_size → HasFront (set_lrsn (patched page mark_at (front_of kind id)) lrsn) id kind }
    ensures made_by_heap { (lrsn : ℕ) (page : List ℕ) (id : PageId) (kind : ℕ) → length page ≡ page_size → HasFront (set_lrsn (patched page mark_at (front kind id)) lrsn) id kind }
    ensures patch { (lrsn : ℕ) (page : List ℕ) (id : PageId) (kind : ℕ) (p : Patch) → HasFront page id kind → front_width ≤ p.offset → p.offset + length p.bytes ≤ page_size → HasFront (after_patch lrsn page p) id kind }
    ensures patches { (lrsn : ℕ) (page : List ℕ) (id : PageId) (kind : ℕ) (ps : List Patch) → HasFront page id kind → AreBehindFront ps → HasFront (all_stamped lrsn page ps) id kind }
    ensures stamped { (lrsn : ℕ) (page : List ℕ) → length page ≡ page_size → 1 ≤ lrsn → lrsn < 2 ^ 80 → IsStamped (set_lrsn page lrsn) }
    ensures all_whole { (lrsn : ℕ) (page : List ℕ) (ps : List Patch) → length page ≡ page_size → AreWithin ps → length (all_stamped lrsn page ps) ≡ page_size }
    ensures all_lrsn { (lrsn : ℕ) (page : List ℕ) (p : Patch) (ps : List Patch) → length page ≡ page_size → AreWithin (p ∷ ps) → lrsn < 2 ^ 80 → lrsn_of (all_stamped lrsn page (p ∷ ps)) ≡ lrsn }
    ensures all_stamped { (lrsn : ℕ) (page : List ℕ) (p : Patch) (ps : List Patch) → length page ≡ page_size → AreWithin (p ∷ ps) → 1 ≤ lrsn → lrsn < 2 ^ 80 → IsStamped (all_stamped lrsn page (p ∷ ps)) }
{}
