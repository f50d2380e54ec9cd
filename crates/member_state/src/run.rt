//! What choice 18 is at: services and the page action.

use ds_base::{PageId, Place};
use member_intents::Frames;
use member_marks::Owner;
use page_plans::Action;
use plock_negotiate::Negotiation;

/// What is done to pages for a transaction.
#[derive(Clone, Copy, Debug)]
pub enum Work {
    Change(Action),
    /// The newest row change of the transaction that stands is taken back.
    Compensate,
}

/// How far a page action is with the page to be taken.
#[derive(Clone, Copy, Debug)]
pub enum RunState {
    /// It needs a frame.
    Frame,
    /// Its lock is negotiated.
    Lock { negotiation: Negotiation },
    /// It is filled and tested, and then looked at.
    Test,
    /// All pages are met, and the number of the change is drawn once the log buffer has room.
    Draw,
}

/// A page action for the transaction of a slot, or for a postponed rollback.
#[derive(Clone, Copy, Debug)]
pub struct Run {
    pub owner: Owner,
    /// What was asked for.
    pub wanted: Work,
    /// What is done now: the split of a full branch goes before its entry.
    pub work: Work,
    /// The page to be taken.
    pub page: PageId,
    pub state: RunState,
    /// The frames of the pages that are taken, which are pinned.
    pub frames: Frames,
    /// The place of the slot to be given, once it is known.
    pub place: Option<Place>,
    /// The bytes that its records need in the log buffer, once all pages are met.
    pub room: u32,
    /// How often its draw found a bit clear.
    pub stales: u32,
}

/// What the member does for others, or to have a free frame.
#[derive(Clone, Copy, Debug, PartialEq, Eq)]
pub enum Service {
    /// A page whose lock another member asked for: it is written where it is changed, and its lock is given up.
    Yield { page: PageId },
    /// A frame is made free: its page is written, its lock given up, its index unregistered.
    Reuse { page: PageId, frame: u16 },
}

/// A choice that waits for a frame for a page.
#[derive(Clone, Copy, Debug, PartialEq, Eq)]
pub struct FrameRequest {
    pub choice: u64,
    pub page: PageId,
}

impl Run {
    /// A page action that begins at this page.
    pub fn new(owner: &Owner, work: &Work, page: PageId) -> Run {
        Run {
            owner: *owner,
            wanted: *work,
            work: *work,
            page,
            state: RunState::Frame,
            frames: Frames {
                count: 0,
                at: [0; 3],
            },
            place: None,
            room: 0,
            stales: 0,
        }
    }

    pub fn needs_frame(&self) -> bool {
        matches!(self.state, RunState::Frame)
    }
}

impl Service {
    pub fn page(self) -> PageId {
        match self {
            Service::Yield { page } | Service::Reuse { page, .. } => page,
        }
    }
}
