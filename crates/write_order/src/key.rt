use crate::rank::{Rank, then_by};
use ds_base::PageId;

/// A changed page in the write order: the pages of a table stand together, those of one rank by their names.
#[derive(Clone, Copy, Debug, PartialEq, Eq)]
pub struct WriteKey {
    pub rank: Rank,
    pub page: PageId,
}

impl WriteKey {
    ghost use Rattle.std.specs.Prelude.{◌≡◌};
    ghost use Rattle.write_order.specs.Keys.{table_of, is_before};

    /// The number of the page's table.
    pub fn table(&self) -> u64
        ensures { result ≡ table_of self.now }
    {
        (self.page.set as u64 + 1) / 2
    }

    /// Whether this page is written before the other one.
    pub fn is_before(&self, other: &WriteKey) -> bool
        ensures { result ≡ is_before self.now other.now }
    {
        let names = then_by(
            self.page.set as u64,
            other.page.set as u64,
            self.page.number < other.page.number,
        );
        let lows = then_by(other.rank.low_key(), self.rank.low_key(), names);
        let turns = then_by(self.rank.turn() as u64, other.rank.turn() as u64, lows);
        then_by(self.table(), other.table(), turns)
    }
}
