//! The pages of the disk: their bytes, the header that stands in front, and changes to them.
#![tactic(auto)]

mod header;
mod layout;
mod page;
mod patch;

pub use header::{Header, NotAPage, PageKind};
pub use layout::VERSION;
pub use page::{ENTRIES_PER_PAGE, PAGE_SIZE, Page, SLOTS_PER_PAGE};
pub use patch::{Patch, Patches};
