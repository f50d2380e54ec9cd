//! What a change comes to over the pages in the frames.

ghost use Rattle.std.specs.Prelude.{◌≡◌, IfOk, option_copied, slice_get};
ghost use Rattle.member_intents.specs.Given.{Fits};
ghost use Rattle.member_trans.specs.Trans.{newest_of};
ghost use Rattle.member_marks.specs.State.{tran_of};
ghost use Rattle.member_needs.specs.Plans.{IsUnlessMemory, system_plan, row_or_fault, row_with, change_plan, back_or_fault, back_plan, intent_plan, PlanIsAllowed};

use crate::records::{ROW_CHANGE_BYTES, page_of};
use ds_base::{Key, NoMemory, PageId, Place, TableId, Value};
use ds_model::RowChange;
use member_intents::{
    Action, Frames, Intent, RowPlan, StepFault, Test, patches_length, plan, row_change, undo_change,
};
use member_marks::{Marks, Owner};
use page_format::{Page, Patches};
use std::alloc::Global;

/// What is made where a number was drawn.
#[derive(Debug, Drop)]
pub enum Plan {
    /// Nothing.
    None,
    System(Patches),
    Row(RowChange),
    /// The newest change that stands is taken back by this one.
    Back(RowChange),
    /// The page has a byte that can't stand there, and the row isn't changed.
    Fault { page: PageId, at: u32 },
}

fn plan_system(
    alloc: Global,
    marks: &Marks,
    pages: &[Page],
    limit: u32,
    action: &Action,
    frames: &Frames,
) -> Result<Plan, StepFault>
    ensures exact { IsUnlessMemory result (system_plan marks.now pages.now limit action.now frames.now) }
    ensures allowed { IfOk result PlanIsAllowed }
{
    let first = page_of(pages, frames, 0);
    let second = page_of(pages, frames, 1);
    let third = page_of(pages, frames, 2);
    let Some(patches) = plan(alloc, action, limit, first, second, third)? else {
        return Err(StepFault::Unlawful(Test::Moot));
    };
    if marks.log_room() < patches_length(&patches) {
        return Err(StepFault::Unlawful(Test::NoRoom));
    }
    Ok(Plan::System(patches))
}

fn row_or_fault(found: RowPlan, page: PageId) -> Plan
    requires { Fits found }
    ensures exact { result ≡ row_or_fault page found }
    ensures allowed { PlanIsAllowed result }
{
    match found {
        RowPlan::Change(change) => Plan::Row(change),
        RowPlan::Fault { at } => Plan::Fault { page, at },
    }
}

fn plan_row(
    alloc: Global,
    marks: &Marks,
    page: Option<&Page>,
    table: TableId,
    key: Key,
    place: Place,
    after: Option<Value>,
) -> Result<Plan, StepFault>
    ensures exact { IsUnlessMemory result (row_with marks.now table key place after (option_copied page.entry)) }
    ensures allowed { IfOk result PlanIsAllowed }
{
    let Some(page) = page else {
        return Err(StepFault::Unlawful(Test::OtherPage));
    };
    if marks.log_room() < ROW_CHANGE_BYTES {
        return Err(StepFault::Unlawful(Test::NoRoom));
    }
    let found = row_change(alloc, table, key, place, after, page);
    Ok(row_or_fault(found, table.heap_page(place.page)))
}

fn plan_change(
    alloc: Global,
    marks: &Marks,
    pages: &[Page],
    limit: u32,
    action: &Action,
    frames: &Frames,
) -> Result<Plan, StepFault>
    ensures exact { IsUnlessMemory result (change_plan marks.now pages.now limit action.now frames.now) }
    ensures allowed { IfOk result PlanIsAllowed }
{
    match action {
        Action::RowChange {
            table,
            key,
            place,
            after,
        } => plan_row(
            alloc,
            marks,
            page_of(pages, frames, 0),
            *table,
            *key,
            *place,
            *after,
        ),
        Action::FormatIndex { .. }
        | Action::FormatHeap { .. }
        | Action::GiveSlot { .. }
        | Action::Split { .. }
        | Action::BranchEntry { .. } => plan_system(alloc, marks, pages, limit, action, frames),
    }
}

fn back_or_fault(found: RowPlan, page: PageId) -> Plan
    requires { Fits found }
    ensures exact { result ≡ back_or_fault page found }
    ensures allowed { PlanIsAllowed result }
{
    match found {
        RowPlan::Change(change) => Plan::Back(change),
        RowPlan::Fault { at } => Plan::Fault { page, at },
    }
}

fn plan_undo(marks: &Marks, pages: &[Page], owner: &Owner, at: u16) -> Plan
    ensures exact { result ≡ back_plan (slice_get pages.now at) (newest_of (tran_of marks.now owner.now)) }
    ensures allowed { PlanIsAllowed result }
{
    let Some(newest) = marks.newest_change(owner) else {
        return Plan::None;
    };
    let Some(page) = pages.get(at as usize) else {
        return Plan::None;
    };
    let change = &newest.change;
    back_or_fault(
        undo_change(change, page),
        change.table.heap_page(change.place.page),
    )
}

/// What a lawful intent comes to, over the pages as they are.
pub fn plan_for(
    alloc: Global,
    marks: &Marks,
    pages: &[Page],
    limit: u32,
    intent: &Intent,
) -> Result<Plan, StepFault>
    ensures exact { IsUnlessMemory result (intent_plan marks.now pages.now limit intent.now) }
    ensures allowed { IfOk result PlanIsAllowed }
{
    match *intent {
        Intent::Change { action, frames, .. } => {
            plan_change(alloc, marks, pages, limit, &action, &frames)
        }
        Intent::Undo { owner, frame } => Ok(plan_undo(marks, pages, &owner, frame)),
        _ => Ok(Plan::None),
    }
}
