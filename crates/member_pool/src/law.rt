//! What the heads of a pool keep through every call.
ghost use Rattle.std.specs.Prelude.{◌≡◌, ◌<◌, ◌≤◌, ℕ, Some, IsSome, length};
ghost use Rattle.ds_base.specs.declared.names.PageId.{PageId};
ghost use Rattle.write_order.specs.declared.rank.Rank.{Rank};
ghost use Rattle.member_pool.specs.declared.frame.Frame.{Frame};
ghost use Rattle.member_pool.specs.Frames.{find_page};
ghost use Rattle.member_pool.specs.Heads.{HeadState, all_free, head_of, with_head, placed_in, freed, pinned_to, marked, written};
ghost use Rattle.member_pool.specs.Sound.{IsSound};

/// No page stands in two frames, and free frames come first in the order of use, at the beginning and after each call.
pub fn keeps_pages_apart()
    ensures all_free { (n : ℕ) → IsSound (all_free n) }
    ensures place { (h : HeadState) (f : ℕ) (id : PageId) → f < length h.frames → ((g : ℕ) → find_page h.frames id ≡ Some g → g ≡ f) → IsSound h → IsSound (placed_in h f id) }
    ensures drop_page { (h : HeadState) (f : ℕ) → f < length h.frames → IsSound h → IsSound (freed h f) }
    ensures pin { (h : HeadState) (f pins : ℕ) → f < length h.frames → IsSome (head_of h f).page → IsSound h → IsSound (pinned_to h f pins) }
    ensures mark { (h : HeadState) (f : ℕ) (head : Frame) → f < length h.frames → head.page ≡ (head_of h f).page → IsSound h → IsSound (with_head h f head) }
{}
