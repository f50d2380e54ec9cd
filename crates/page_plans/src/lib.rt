//! What a change of pages that is wanted comes to over the pages as they are: which page is met next, whether the change
//! is needed, and the patches that make it.
//!
//! A change of the index or of the heap's layout may have been made by another since it was wanted. Then it is moot, and
//! whoever wanted it reads the pages again.
#![tactic(auto)]

mod action;
mod faults;
mod heap;
mod index;
mod laws;
mod looks;
mod names;
mod patches;
mod plans;
mod rows;
mod systems;

pub use action::{Action, Look, RowPlan};
pub use laws::page_laws;
pub use looks::{look, place_of};
pub use names::{action_page, first_page, table_of};
pub use patches::patches_length;
pub use plans::plan;
pub use rows::{put_row, row_change, undo_change};
