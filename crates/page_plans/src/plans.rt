//! The patches of an action.
ghost use Rattle.std.specs.Prelude.{◌≡◌, IfOk, IfSome, option_copied};
ghost use Rattle.ds_model.specs.RecordBytes.{PatchesAreAllowed};
ghost use Rattle.page_plans.specs.Plans.{plan_of, one_plan, three_plan};

use crate::action::Action;
use crate::systems::{branch_plan, heap_plan, index_plan, slot_plan, split_plan};
use ds_base::NoMemory;
use page_format::{Page, Patches};
use std::alloc::Global;

// The changes of one page.
fn plan_one(alloc: Global, action: &Action, page: &Page) -> Result<Option<Patches>, NoMemory>
    ensures exact { IfOk result (λ plan. plan ≡ one_plan action.now page.now) }
    ensures allowed { IfOk result (λ plan. IfSome plan PatchesAreAllowed) }
{
    match action {
        Action::FormatHeap { table } => heap_plan(alloc, *table, page),
        Action::BranchEntry {
            table,
            branch,
            low,
            child,
        } => branch_plan(alloc, *table, *branch, *low, *child, page),
        Action::FormatIndex { .. }
        | Action::GiveSlot { .. }
        | Action::Split { .. }
        | Action::RowChange { .. } => Ok(None),
    }
}

// The changes of three pages.
fn plan_three(
    alloc: Global,
    action: &Action,
    limit: u32,
    first: &Page,
    second: &Page,
    third: &Page,
) -> Result<Option<Patches>, NoMemory>
    ensures exact { IfOk result (λ plan. plan ≡ three_plan action.now limit first.now second.now third.now) }
    ensures allowed { IfOk result (λ plan. IfSome plan PatchesAreAllowed) }
{
    match action {
        Action::FormatIndex { table } => index_plan(alloc, *table, first, second, third),
        Action::GiveSlot { table, key, leaf } => {
            slot_plan(alloc, *table, *key, *leaf, limit, first, second, third)
        }
        Action::Split { table, left } => split_plan(alloc, *table, *left, first, second, third),
        Action::FormatHeap { .. } | Action::BranchEntry { .. } | Action::RowChange { .. } => {
            Ok(None)
        }
    }
}

/// The patches of an action that isn't a row's, over its pages in the order in which they are met. There are none where
/// the looks at these pages don't lead to the change.
pub fn plan(
    alloc: Global,
    action: &Action,
    limit: u32,
    first: Option<&Page>,
    second: Option<&Page>,
    third: Option<&Page>,
) -> Result<Option<Patches>, NoMemory>
    ensures exact { IfOk result (λ plan. plan ≡ plan_of action.now limit (option_copied first.entry) (option_copied second.entry) (option_copied third.entry)) }
    ensures allowed { IfOk result (λ plan. IfSome plan PatchesAreAllowed) }
{
    let Some(first) = first else {
        return Ok(None);
    };
    match (second, third) {
        (None, None) => plan_one(alloc, action, first),
        (Some(second), Some(third)) => plan_three(alloc, action, limit, first, second, third),
        (Some(_), None) | (None, Some(_)) => Ok(None),
    }
}
