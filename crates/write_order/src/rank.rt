ghost use Rattle.std.specs.Prelude.{◌≡◌, nat_lt};
ghost use Rattle.write_order.specs.Ranks.{
  rank_by_name as name_rank,
  index_rank as page_rank,
  rank_of as full_rank,
  turn_of,
  low_key_of,
  then_by,
  rank_before,
};

use ds_base::{Key, PageId};
use index_leaf::low_key;
use page_format::Page;

/// Where the kind of a page stands in it.
const KIND_AT: usize = 4;

/// The kind of a branch.
const BRANCH: u8 = 4;

/// What decides when a changed page of a table is written. A leaf or branch has its low key, which never changes.
#[derive(Clone, Copy, Debug, PartialEq, Eq)]
pub enum Rank {
    HeapPage,
    HeapHeader,
    Leaf(Key),
    Branch(Key),
    IndexHeader,
}

impl Rank {
    /// Whether a page of this rank is written before one of the other. Among leaves, and among branches, the greater
    /// low key comes first.
    pub fn is_before(&self, other: &Rank) -> bool
        ensures { result ≡ rank_before self.now other.now }
    {
        then_by(
            self.turn() as u64,
            other.turn() as u64,
            other.low_key() < self.low_key(),
        )
    }

    /// The turn of the kind of page, from 0.
    pub(crate) fn turn(&self) -> u8
        ensures { result ≡ turn_of self.now }
    {
        match self {
            Rank::HeapPage => 0,
            Rank::HeapHeader => 1,
            Rank::Leaf(_) => 2,
            Rank::Branch(_) => 3,
            Rank::IndexHeader => 4,
        }
    }

    /// The low key of a leaf or branch, and 0 for other pages.
    pub(crate) fn low_key(&self) -> Key
        ensures { result ≡ low_key_of self.now }
    {
        match self {
            Rank::Leaf(low) | Rank::Branch(low) => *low,
            _ => 0,
        }
    }
}

/// The lesser number decides, and the rest where both are equal.
pub(crate) fn then_by(a: u64, b: u64, rest: bool) -> bool
    ensures { result ≡ then_by a b rest }
{
    a < b || (a == b && rest)
}

/// The rank that the name of a page tells, or `None` for a leaf or branch.
pub fn rank_by_name(page: PageId) -> Option<Rank>
    ensures { result ≡ name_rank page }
{
    let is_header = page.number == 0;
    if page.set % 2 == 1 {
        Some(if is_header {
            Rank::HeapHeader
        } else {
            Rank::HeapPage
        })
    } else if is_header {
        Some(Rank::IndexHeader)
    } else {
        None
    }
}

/// The rank of a page by its name and its bytes. A page of the index that isn't formatted yet ranks as a leaf.
pub fn rank_of(page: PageId, bytes: &Page) -> Rank
    ensures { result ≡ full_rank page bytes.now }
{
    match rank_by_name(page) {
        Some(rank) => rank,
        None => index_rank(bytes),
    }
}

fn index_rank(bytes: &Page) -> Rank
    ensures { result ≡ page_rank bytes.now }
{
    let low = low_key(bytes);
    if bytes.bytes()[KIND_AT] == BRANCH {
        Rank::Branch(low)
    } else {
        Rank::Leaf(low)
    }
}
