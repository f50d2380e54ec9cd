use ds_base::{PageId, TableId};

/// The tables from a first one to a last one.
#[derive(Clone, Copy, Debug, PartialEq, Eq)]
pub struct TableRange {
    pub first: TableId,
    pub last: TableId,
}

impl TableRange {
    ghost use Rattle.std.specs.Prelude.{◌≡◌, ◌↔◌, IsTrue};
    ghost use Rattle.redone_pages.specs.Ranges.{has_table, has_page, HasTable, HasPage};

    pub fn has_table(self, table: TableId) -> bool
        ensures exact { result ≡ has_table self table }
        ensures fact { IsTrue result ↔ HasTable self table }
    {
        self.first.number() <= table.number() && table.number() <= self.last.number()
    }

    /// Whether the page is one of the heap or the index of one of the tables.
    pub fn has_page(self, id: PageId) -> bool
        ensures exact { result ≡ has_page self id }
        ensures fact { IsTrue result ↔ HasPage self id }
    {
        self.first.heap_set() <= id.set && id.set <= self.last.index_set()
    }
}
