ghost use Rattle.std.specs.Prelude.{◌≡◌};
ghost use Rattle.member_pool.specs.Frames.{holding, free_frame, holds, is_unpinned, page_of};
ghost use Rattle.member_pool.specs.Marks.{entry_of};

use ds_base::PageId;
use page_index::HoldsPage;
use write_order::{Rank, WriteKey};

/// What a frame of the pool holds, and how it is used.
#[derive(Clone, Copy, Debug, PartialEq, Eq)]
pub struct Frame {
    /// The page that was placed here, or `None` in a free frame.
    pub page: Option<PageId>,
    /// The page was changed since it was last written to the group's cache.
    pub changed: bool,
    /// Where a changed page stands in the write order.
    pub rank: Rank,
    /// The page's bytes were read into the frame.
    pub filled: bool,
    /// As far as the member knows, it is registered for the page and its copy is valid.
    pub registered: bool,
    /// How many users need the page to stay here.
    pub pins: u32,
}

impl Frame {
    /// A frame that holds no page.
    pub fn free() -> Frame
        ensures { result ≡ free_frame }
    {
        Frame {
            page: None,
            changed: false,
            rank: Rank::HeapPage,
            filled: false,
            registered: false,
            pins: 0,
        }
    }

    /// A frame in which a page was just placed.
    pub fn holding(id: PageId) -> Frame
        ensures { result ≡ holding id }
    {
        Frame {
            page: Some(id),
            ..Frame::free()
        }
    }

    /// Whether the frame holds this page.
    pub fn holds(&self, id: PageId) -> bool
        ensures { result ≡ holds id self.now }
    {
        match self.page {
            Some(page) => id == page,
            None => false,
        }
    }

    /// The place of a changed page in the write order.
    pub fn entry(&self) -> Option<WriteKey>
        ensures { result ≡ entry_of self.now }
    {
        let page = self.page?;
        if self.changed {
            Some(WriteKey {
                rank: self.rank,
                page,
            })
        } else {
            None
        }
    }
}

impl HoldsPage for Frame {
    ghost page = { page_of };

    ghost may_be_taken = { is_unpinned };

    fn page(&self) -> Option<PageId> {
        self.page
    }

    fn may_be_taken(&self) -> bool {
        self.pins == 0
    }
}
