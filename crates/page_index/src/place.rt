ghost use Rattle.std.specs.Prelude.{◌≡◌, Bool, Option};
ghost use Rattle.ds_base.specs.declared.names.PageId.{PageId};

use ds_base::PageId;

/// A place that may hold a page, as a slot of a table or a frame of a pool.
pub trait HoldsPage {
    ghost page: { Self → Option PageId };

    ghost may_be_taken: { Self → Bool };

    /// The page that stands here.
    fn page(&self) -> Option<PageId>
        ensures { result ≡ page self.now };

    /// Whether another page may be put here.
    fn may_be_taken(&self) -> bool
        ensures { result ≡ may_be_taken self.now };
}
