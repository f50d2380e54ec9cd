use ds_base::{Key, PageId, TableId};

/// What a lock is on: a table space, a row (present or absent), a page or a page set.
#[derive(Clone, Copy, Debug, PartialEq, Eq)]
pub enum Name {
    Space(TableId),
    Row(TableId, Key),
    Page(PageId),
    Set(u16),
}
