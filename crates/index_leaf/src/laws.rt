//! What searches find on the pages of an index, for who speaks of all of them. The functions do nothing: each is called
//! where its facts are needed.

ghost use Rattle.std.specs.Prelude.{◌≡◌, ◌↔◌, ◌<◌, ◌≤◌, ◌==◌, ◌&&◌, ◌^◌, leb, ℕ, List, [], ◌∷◌, length, slice_index, IsTrue, true, false, Contains, None, if◌then◌else◌};
ghost use Rattle.ds_base.specs.declared.names.Place.{Place};
ghost use Rattle.page_format.specs.Fields.{page_size, set_lrsn};
ghost use Rattle.page_format.specs.Header.{entries_per_page};
ghost use Rattle.page_format.specs.declared.patch.Patch.{Patch};
ghost use Rattle.index_leaf.specs.declared.layout.Entry.{Entry};
ghost use Rattle.index_leaf.specs.declared.step.Look.TheVariants.{Right, Down, Found, Absent};
ghost use Rattle.index_leaf.specs.Entries.{count_of, low_of, high_of, right_field, entries_of, IsRising};
ghost use Rattle.index_leaf.specs.Search.{is_branch, is_beyond, floor, find, look_of, IsFloor};
ghost use Rattle.ds_base.specs.Pages.{index_page};
ghost use Rattle.index_leaf.specs.Changes.{all_patched, insert_patches, low_of_split, left_patches, right_patches, IsLeftOf, IsRightOf, zeros, branch, leaf, first_entry, format_patches};
ghost use Rattle.index_leaf.specs.Nodes.{IsNode, ReadsAs, CanTake, HasTaken, CanSplit, AllLieInPage, all_stamped, none_within, patches_for, IsFirst};

/// A search goes right exactly where the key is not below the high key, down exactly by the greatest entry that is not
/// above the key, and finds exactly an entry of that very key.
pub fn search_step_laws()
    ensures right { (page : List ℕ) (key number : ℕ) → (look_of page key ≡ Right number) ↔ (IsTrue (is_beyond (high_of page) key) × (number ≡ right_field page)) }
    ensures down { (page : List ℕ) (key child : ℕ) → IsRising (entries_of page) → look_of page key ≡ Down child → (e : Entry) × IsFloor (entries_of page) key e × (child ≡ e.place.page) }
    ensures found { (page : List ℕ) (key : ℕ) (place : Place) → look_of page key ≡ Found place → Contains (entries_of page) (record { key = key; place = place }) }
    ensures finds { (page : List ℕ) (e : Entry) → IsRising (entries_of page) → is_branch page ≡ false → is_beyond (high_of page) e.key ≡ false → Contains (entries_of page) e → look_of page e.key ≡ Found e.place }
    ensures leads { (page : List ℕ) (key : ℕ) (e : Entry) → IsRising (entries_of page) → is_branch page ≡ true → is_beyond (high_of page) key ≡ false → IsFloor (entries_of page) key e → look_of page key ≡ Down e.place.page }
    ensures lost { (page : List ℕ) (key : ℕ) (e : Entry) → look_of page key ≡ Absent → is_branch page ≡ true → Contains (entries_of page) e → key < e.key }
    ensures absent { (page : List ℕ) (key : ℕ) (e : Entry) → look_of page key ≡ Absent → is_branch page ≡ false → Contains (entries_of page) e → e.key ≡ key → ⊥ }
{}

/// The stamp of a change leaves all that a search reads, and a change that stamps the page at each of its patches ends as
/// if it had stamped the page once, at its end.
pub fn stamp_laws()
    ensures whole { (page : List ℕ) (lrsn : ℕ) → length page ≡ page_size → length (set_lrsn page lrsn) ≡ page_size }
    ensures fields { (page : List ℕ) (lrsn : ℕ) → length page ≡ page_size → ReadsAs page (set_lrsn page lrsn) }
    ensures once { (lrsn : ℕ) (page : List ℕ) (p : Patch) (ps : List Patch) → length page ≡ page_size → AllLieInPage (p ∷ ps) → all_stamped lrsn page (p ∷ ps) ≡ set_lrsn (all_patched page (p ∷ ps)) lrsn }
    ensures search { (page new : List ℕ) (key : ℕ) → ReadsAs page new → look_of new key ≡ look_of page key }
    ensures node { (page new : List ℕ) → length new ≡ page_size → ReadsAs page new → IsNode page → IsNode new }
{}

/// An insertion adds one answer to those of a leaf; in a branch it leads the keys from that of the new entry on, below
/// the next entry, to the new page. All other answers stay.
pub fn insert_laws()
    ensures fields { (page : List ℕ) (e : Entry) → CanTake page e → HasTaken page (all_patched page (insert_patches page e)) e }
    ensures stamped { (page : List ℕ) (e : Entry) (lrsn : ℕ) → CanTake page e → HasTaken page (all_stamped lrsn page (insert_patches page e)) e }
    ensures rising { (page new : List ℕ) (e : Entry) → HasTaken page new e → IsRising (entries_of page) → find (entries_of page) e.key ≡ None → IsRising (entries_of new) }
    ensures leaf { (page new : List ℕ) (e : Entry) (key : ℕ) → HasTaken page new e → is_branch page ≡ false → is_beyond (high_of page) e.key ≡ false → find (entries_of page) e.key ≡ None → look_of new key ≡ (if key == e.key then Found e.place else look_of page key) }
    ensures branch { (page new : List ℕ) (e : Entry) (key : ℕ) → HasTaken page new e → is_branch page ≡ true → IsRising (entries_of page) → is_beyond (high_of page) key ≡ false → look_of new key ≡ (if leb e.key key && none_within (entries_of page) e.key key then Down e.place.page else look_of page key) }
    ensures right { (page new : List ℕ) (e : Entry) (key : ℕ) → HasTaken page new e → is_beyond (high_of page) key ≡ true → look_of new key ≡ look_of page key }
    ensures node { (page new : List ℕ) (e : Entry) → HasTaken page new e → IsNode page → count_of page < entries_per_page → low_of page ≤ e.key → is_beyond (high_of page) e.key ≡ false → find (entries_of page) e.key ≡ None → IsNode new }
{}

/// After a split the left page answers for the keys below the low key of the right page as before, and leads all others
/// to the right page, which answers for them as the left page did. Both are nodes, and a search that goes from the left
/// page to the right one never comes to a low key above its key.
pub fn split_laws()
    ensures can { (left : List ℕ) → length left ≡ page_size → count_of left ≡ entries_per_page → ((i : ℕ) → slice_index left i < 2 ^ 8) → CanSplit left }
    ensures left { (left : List ℕ) (number : ℕ) → CanSplit left → number < 2 ^ 32 → IsLeftOf left (all_patched left (left_patches left number)) (low_of_split left) number }
    ensures left_stamped { (left : List ℕ) (number lrsn : ℕ) → CanSplit left → number < 2 ^ 32 → IsLeftOf left (all_stamped lrsn left (left_patches left number)) (low_of_split left) number }
    ensures right { (left fresh : List ℕ) (number : ℕ) → CanSplit left → length fresh ≡ page_size → IsRightOf left (all_patched fresh (right_patches left number)) (low_of_split left) }
    ensures right_stamped { (left fresh : List ℕ) (number lrsn : ℕ) → CanSplit left → length fresh ≡ page_size → IsRightOf left (all_stamped lrsn fresh (right_patches left number)) (low_of_split left) }
    ensures below { (left new : List ℕ) (number key : ℕ) → IsNode left → count_of left ≡ entries_per_page → IsLeftOf left new (low_of_split left) number → key < low_of_split left → look_of new key ≡ look_of left key }
    ensures beyond { (left new : List ℕ) (low number key : ℕ) → IsLeftOf left new low number → low ≤ key → look_of new key ≡ Right number }
    ensures from { (left new : List ℕ) (key : ℕ) → IsRising (entries_of left) → count_of left ≡ entries_per_page → IsRightOf left new (low_of_split left) → low_of_split left ≤ key → look_of new key ≡ look_of left key }
    ensures inside { (left : List ℕ) → IsNode left → count_of left ≡ entries_per_page → is_beyond (high_of left) (low_of_split left) ≡ false }
    ensures left_node { (left new : List ℕ) (number : ℕ) → IsNode left → count_of left ≡ entries_per_page → IsLeftOf left new (low_of_split left) number → IsNode new }
    ensures right_node { (left new : List ℕ) → IsNode left → count_of left ≡ entries_per_page → IsRightOf left new (low_of_split left) → IsNode new }
    ensures never_above { (left first second : List ℕ) (low number key : ℕ) → IsLeftOf left first low number → IsRightOf left second low → is_beyond (high_of first) key ≡ true → low_of second ≤ key }
{}

/// In a new index every search goes down to page 2, and finds nothing there.
pub fn format_laws()
    ensures root { (table : ℕ) → IsFirst (all_patched (zeros page_size) (patches_for (index_page table 1) (format_patches table))) branch (first_entry ∷ []) }
    ensures root_stamped { (table lrsn : ℕ) → IsFirst (all_stamped lrsn (zeros page_size) (patches_for (index_page table 1) (format_patches table))) branch (first_entry ∷ []) }
    ensures leaf { (table : ℕ) → IsFirst (all_patched (zeros page_size) (patches_for (index_page table 2) (format_patches table))) leaf [] }
    ensures leaf_stamped { (table lrsn : ℕ) → IsFirst (all_stamped lrsn (zeros page_size) (patches_for (index_page table 2) (format_patches table))) leaf [] }
    ensures root_search { (page : List ℕ) (key : ℕ) → IsFirst page branch (first_entry ∷ []) → look_of page key ≡ Down 2 }
    ensures leaf_search { (page : List ℕ) (key : ℕ) → IsFirst page leaf [] → look_of page key ≡ Absent }
    ensures root_node { (page : List ℕ) → IsFirst page branch (first_entry ∷ []) → IsNode page }
    ensures leaf_node { (page : List ℕ) → IsFirst page leaf [] → IsNode page }
{}
