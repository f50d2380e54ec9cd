use ds_base::Key;
use page_format::Patches;

/// What the insertion of an entry takes.
#[derive(Debug, Drop)]
pub enum Inserted {
    /// The page is full, and has to be split first.
    MustSplit,
    /// These patches of the page.
    Done(Patches),
}

/// What splits a full page.
#[derive(Debug, Drop)]
pub struct Split {
    /// The patches of the page that is split.
    pub left: Patches,
    /// The patches of the new page to its right, which is all zeros.
    pub right: Patches,
    /// The least key of the right page, and from now on the high key of the left one.
    pub low: Key,
}
