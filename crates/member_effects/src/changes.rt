//! Changes for which a number was drawn.

ghost use Rattle.std.specs.Prelude.{◌≡◌, ◌<◌, if◌then◌else◌, length, slice_set};
ghost use Rattle.std.specs.List.{AllByRecursion};
ghost use Rattle.ds_model.specs.RecordBytes.{IsAllowed, PatchIsAllowed, PatchesAreAllowed};
ghost use Rattle.page_plans.specs.Rows.{after_row};
ghost use Rattle.ds_base.specs.Pages.{same_page};
ghost use Rattle.heap_space.specs.Written.{after_patch, written};
ghost use Rattle.write_order.specs.Ranks.{rank_of as full_rank};
ghost use Rattle.member_needs.specs.Given.{after_marked};
ghost use Rattle.member_needs.specs.Given.{after_system, after_commit, fits_in};
ghost use Rattle.member_needs.specs.Given.{slot_tran, tran_of};
ghost use Rattle.member_needs.specs.Plans.{PlanIsAllowed};
ghost use Rattle.member_needs.specs.declared.plans.Plan.TheVariants as plans;
ghost use Rattle.member_effects.specs.declared.told.Told.TheVariants as told;
ghost use Rattle.member_effects.specs.Changes.{bytes_at, system_record, patched_frame, patched_nth, patched_frames, row_frame, row_nth, changed_by, plan_told, back_by, back_told, undone_after, undone_told, undrawn_after, undrawn_told, drawn_after, drawn_told, committed_after, committed_told};
ghost use Rattle.member_effects.specs.Puts.{one_if, change_records, undo_records, commit_records, drawn_by};

use crate::told::Told;
use ds_base::{Lrsn, PageId};
use ds_model::{Body, LogRecord, Refusal, RowChange, Version};
use facility::Reply;
use member_needs::{Frames, Marks, Owner, Plan, frame_of};
use page_format::{Page, Patch, Patches};
use page_plans::put_row;
use write_order::rank_of;

// Makes the patch if it is for the page.
fn patch_own(page: &mut Page, id: PageId, patch: &Patch, lrsn: Lrsn)
    requires { PatchIsAllowed patch.now }
    ensures { page.new ≡ (if same_page patch.now.page id then after_patch lrsn page.old patch.now else page.old) }
{
    if patch.page == id {
        page.apply(patch, lrsn);
    }
}

// Makes those of the patches that are for the page.
fn patch_page(page: &mut Page, id: PageId, patches: &[Patch], lrsn: Lrsn)
    requires { AllByRecursion PatchIsAllowed patches.now }
    ensures { page.new ≡ written id lrsn patches.now page.old }
{
    for patch in patches {
        patch_own(page, id, patch, lrsn);
    }
}

fn patch_at(pages: &mut [Page], at: u16, id: PageId, patches: &[Patch], lrsn: Lrsn)
    requires there { at < length pages.old }
    requires allowed { AllByRecursion PatchIsAllowed patches.now }
    ensures { pages.new ≡ slice_set pages.old at (written id lrsn patches.now (bytes_at pages.old at)) }
{
    patch_page(&mut pages[at as usize], id, patches, lrsn);
}

// The page in the frame is changed.
fn mark_at(marks: &mut Marks, pages: &[Page], at: u16, id: PageId)
    requires { at < length pages.now }
    ensures { marks.new ≡ after_marked marks.old at (full_rank id (bytes_at pages.now at)) }
{
    let rank = rank_of(id, &pages[at as usize]);
    marks.mark_changed(at, rank);
}

// The page in the frame is changed by those of the patches that are for it.
fn patch_frame(marks: &mut Marks, pages: &mut [Page], at: u16, patches: &[Patch], lrsn: Lrsn)
    requires { AllByRecursion PatchIsAllowed patches.now }
    ensures { record { marks = marks.new; pages = pages.new } ≡ patched_frame (record { marks = marks.old; pages = pages.old }) at patches.now lrsn }
{
    let Some(id) = marks.frame(at).page else {
        return;
    };
    if (at as usize) < pages.len() {
        patch_at(pages, at, id, patches, lrsn);
        mark_at(marks, pages, at, id);
    }
}

fn patch_nth(marks: &mut Marks, pages: &mut [Page], at: Option<u16>, patches: &[Patch], lrsn: Lrsn)
    requires { AllByRecursion PatchIsAllowed patches.now }
    ensures { record { marks = marks.new; pages = pages.new } ≡ patched_nth (record { marks = marks.old; pages = pages.old }) at patches.now lrsn }
{
    if let Some(at) = at {
        patch_frame(marks, pages, at, patches, lrsn);
    }
}

fn patch_frames(
    marks: &mut Marks,
    pages: &mut [Page],
    frames: &Frames,
    patches: &[Patch],
    lrsn: Lrsn,
)
    requires { AllByRecursion PatchIsAllowed patches.now }
    ensures { record { marks = marks.new; pages = pages.new } ≡ patched_frames (record { marks = marks.old; pages = pages.old }) frames.now patches.now lrsn }
{
    patch_nth(marks, pages, frame_of(frames, 0), patches, lrsn);
    patch_nth(marks, pages, frame_of(frames, 1), patches, lrsn);
    patch_nth(marks, pages, frame_of(frames, 2), patches, lrsn);
}

fn put_at(pages: &mut [Page], at: u16, change: &RowChange, lrsn: Lrsn)
    requires { at < length pages.old }
    ensures { pages.new ≡ slice_set pages.old at (after_row lrsn change.now (bytes_at pages.old at)) }
{
    put_row(&mut pages[at as usize], change, lrsn);
}

// The page in the frame has the row after the change.
fn put_frame(marks: &mut Marks, pages: &mut [Page], at: u16, change: &RowChange, lrsn: Lrsn)
    ensures { record { marks = marks.new; pages = pages.new } ≡ row_frame (record { marks = marks.old; pages = pages.old }) at change.now lrsn }
{
    let Some(id) = marks.frame(at).page else {
        return;
    };
    if (at as usize) < pages.len() {
        put_at(pages, at, change, lrsn);
        mark_at(marks, pages, at, id);
    }
}

fn put_nth(marks: &mut Marks, pages: &mut [Page], at: Option<u16>, change: &RowChange, lrsn: Lrsn)
    ensures { record { marks = marks.new; pages = pages.new } ≡ row_nth (record { marks = marks.old; pages = pages.old }) at change.now lrsn }
{
    if let Some(at) = at {
        put_frame(marks, pages, at, change, lrsn);
    }
}

fn system_record(patches: Patches, lrsn: Lrsn) -> LogRecord
    ensures { result ≡ system_record patches lrsn }
{
    let Some(none) = Lrsn::new(0) else {
        unreachable!()
    };
    LogRecord {
        version: Version::Two,
        lrsn,
        tran: none,
        body: Body::System { patches },
    }
}

#[tactic(auto, using(crate::proofs::Allowed::one_allowed))]
fn log_system(marks: &mut Marks, slot: u8, patches: Patches, lrsn: Lrsn)
    requires { PatchesAreAllowed patches }
    ensures after { marks.new ≡ after_system marks.old slot (system_record patches lrsn) }
    ensures allowed { AllByRecursion IsAllowed (one_if (fits_in marks.old.log (system_record patches lrsn)) (system_record patches lrsn)) }
{
    let it = system_record(patches, lrsn);
    marks.put_system(slot, &it);
}

// The pages are changed as the patches say, and their record is put.
#[tactic(auto, using(crate::proofs::Allowed::patched_allowed))]
fn change_pages(
    marks: &mut Marks,
    pages: &mut [Page],
    slot: u8,
    frames: &Frames,
    patches: Patches,
    lrsn: Lrsn,
)
    requires { PatchesAreAllowed patches }
    ensures after { record { marks = marks.new; pages = pages.new } ≡ changed_by (record { marks = marks.old; pages = pages.old }) slot frames.now (plans.System patches) lrsn }
    ensures allowed { AllByRecursion IsAllowed (change_records marks.old.log (slot_tran marks.old slot) (plans.System patches) lrsn) }
{
    patch_frames(marks, pages, frames, patches.as_slice(), lrsn);
    log_system(marks, slot, patches, lrsn);
}

// The row is changed in its page, and the record of the change is put.
#[tactic(auto, using(crate::proofs::Allowed::row_allowed))]
fn change_row(
    marks: &mut Marks,
    pages: &mut [Page],
    slot: u8,
    frames: &Frames,
    change: &RowChange,
    lrsn: Lrsn,
)
    ensures after { record { marks = marks.new; pages = pages.new } ≡ changed_by (record { marks = marks.old; pages = pages.old }) slot frames.now (plans.Row change.now) lrsn }
    ensures allowed { AllByRecursion IsAllowed (change_records marks.old.log (slot_tran marks.old slot) (plans.Row change.now) lrsn) }
{
    put_nth(marks, pages, frame_of(frames, 0), change, lrsn);
    marks.note_change(slot, lrsn, change);
}

fn change_by(
    marks: &mut Marks,
    pages: &mut [Page],
    slot: u8,
    frames: &Frames,
    plan: Plan,
    lrsn: Lrsn,
) -> Told
    requires { PlanIsAllowed plan }
    ensures told { result ≡ plan_told plan }
    ensures after { record { marks = marks.new; pages = pages.new } ≡ changed_by (record { marks = marks.old; pages = pages.old }) slot frames.now plan lrsn }
    ensures allowed { AllByRecursion IsAllowed (change_records marks.old.log (slot_tran marks.old slot) plan lrsn) }
{
    match plan {
        Plan::None => Told::Drawn,
        Plan::System(patches) => {
            change_pages(marks, pages, slot, frames, patches, lrsn);
            Told::Drawn
        }
        Plan::Row(change) => {
            change_row(marks, pages, slot, frames, &change, lrsn);
            Told::Drawn
        }
        Plan::Back(_) => Told::Drawn,
        Plan::Fault { page, at } => Told::Damaged { page, at },
    }
}

// The row is put back in its page, and the records of that are put.
fn back_row(
    marks: &mut Marks,
    pages: &mut [Page],
    owner: &Owner,
    at: u16,
    change: &RowChange,
    lrsn: Lrsn,
)
    ensures after { record { marks = marks.new; pages = pages.new } ≡ back_by (record { marks = marks.old; pages = pages.old }) owner.now at (plans.Back change.now) lrsn }
    ensures allowed { AllByRecursion IsAllowed (undo_records marks.old.log (tran_of marks.old owner.now) (plans.Back change.now) lrsn) }
{
    put_frame(marks, pages, at, change, lrsn);
    marks.note_undone(owner, lrsn);
}

// The newest change of the owner's transaction is taken back.
fn back_by(
    marks: &mut Marks,
    pages: &mut [Page],
    owner: &Owner,
    at: u16,
    plan: Plan,
    lrsn: Lrsn,
) -> Told
    requires { PlanIsAllowed plan }
    ensures told { result ≡ back_told plan }
    ensures after { record { marks = marks.new; pages = pages.new } ≡ back_by (record { marks = marks.old; pages = pages.old }) owner.now at plan lrsn }
    ensures allowed { AllByRecursion IsAllowed (undo_records marks.old.log (tran_of marks.old owner.now) plan lrsn) }
{
    match &plan {
        Plan::None | Plan::System(_) | Plan::Row(_) => Told::Drawn,
        Plan::Back(change) => {
            back_row(marks, pages, owner, at, change, lrsn);
            Told::Drawn
        }
        Plan::Fault { page, at } => Told::Damaged {
            page: *page,
            at: *at,
        },
    }
}

// Nothing was drawn.
fn not_drawn(marks: &mut Marks, owner: &Owner, reply: &Reply, place: u64) -> Told
    ensures told { result ≡ undrawn_told reply.now }
    ensures after { marks.new ≡ undrawn_after marks.old owner.now reply.now place }
{
    match *reply {
        Reply::Stale { index } => {
            marks.set_registered(index, false);
            Told::Stale { frame: index }
        }
        Reply::LrsnEnd { at } => {
            marks.offer(owner, Refusal::LrsnEnd { at }, place);
            Told::Refused
        }
        _ => Told::Stepped,
    }
}

/// The reply to `draw` for these frames.
pub fn drawn(
    marks: &mut Marks,
    pages: &mut [Page],
    slot: u8,
    frames: &Frames,
    plan: Plan,
    reply: &Reply,
    place: u64,
) -> Told
    requires { PlanIsAllowed plan }
    ensures told { result ≡ drawn_told plan reply.now }
    ensures after { record { marks = marks.new; pages = pages.new } ≡ drawn_after (record { marks = marks.old; pages = pages.old }) slot frames.now plan reply.now place }
    ensures allowed { AllByRecursion IsAllowed (drawn_by reply.now (change_records marks.old.log (slot_tran marks.old slot) plan)) }
{
    match reply {
        Reply::Drawn { lrsn } => change_by(marks, pages, slot, frames, plan, *lrsn),
        _ => not_drawn(marks, &Owner::Slot(slot), reply, place),
    }
}

/// The reply to `draw-undo` for this frame.
pub fn undone(
    marks: &mut Marks,
    pages: &mut [Page],
    owner: &Owner,
    at: u16,
    plan: Plan,
    reply: &Reply,
    place: u64,
) -> Told
    requires { PlanIsAllowed plan }
    ensures told { result ≡ undone_told plan reply.now }
    ensures after { record { marks = marks.new; pages = pages.new } ≡ undone_after (record { marks = marks.old; pages = pages.old }) owner.now at plan reply.now place }
    ensures allowed { AllByRecursion IsAllowed (drawn_by reply.now (undo_records marks.old.log (tran_of marks.old owner.now) plan)) }
{
    match reply {
        Reply::Drawn { lrsn } => back_by(marks, pages, owner, at, plan, *lrsn),
        _ => not_drawn(marks, owner, reply, place),
    }
}

#[tactic(auto, using(crate::proofs::Allowed::one_allowed))]
fn put_commit(marks: &mut Marks, slot: u8, lrsn: Lrsn)
    ensures after { marks.new ≡ after_commit marks.old slot lrsn }
    ensures allowed { AllByRecursion IsAllowed (commit_records marks.old.log (slot_tran marks.old slot) lrsn) }
{
    marks.draw_commit(slot, lrsn);
}

/// The reply to `draw` for a Commit record.
pub fn commit_drawn(marks: &mut Marks, slot: u8, reply: &Reply, place: u64) -> Told
    ensures told { result ≡ committed_told reply.now }
    ensures after { marks.new ≡ committed_after marks.old slot reply.now place }
    ensures allowed { AllByRecursion IsAllowed (drawn_by reply.now (commit_records marks.old.log (slot_tran marks.old slot))) }
{
    match reply {
        Reply::Drawn { lrsn } => {
            put_commit(marks, slot, *lrsn);
            Told::Drawn
        }
        _ => not_drawn(marks, &Owner::Slot(slot), reply, place),
    }
}
