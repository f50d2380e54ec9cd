use ds_base::{MemberId, PageId};

/// A spot of a disk.
#[derive(Clone, Copy, Debug, PartialEq, Eq)]
pub enum Spot {
    /// The record that begins at this byte of the member's log.
    Log { member: MemberId, at: u64 },
    Page { id: PageId },
}
