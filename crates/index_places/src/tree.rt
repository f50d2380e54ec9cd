ghost use Rattle.std.specs.Prelude.{◌≡◌, ◌-◌, ◌<◌, ◌^◌, min, IfOk};
ghost use Rattle.ds_base.specs.Pages.{index_set};
ghost use Rattle.page_chain.specs.Chains.{images_of};
ghost use Rattle.redone_pages.specs.Lasts.{last_in_records};
ghost use Rattle.redone_pages.specs.Ranges.{HasTable};
ghost use Rattle.index_places.specs.Trees.{IsTreeOf};

use crate::slots::{Given, places_of};
use ds_base::{NoMemory, Place, TableId};
use index_leaf::next_page;
use index_links::{Node, read_nodes, rights_of};
use redone_pages::RedonePages;
use spot_map::SpotMap;
use std::alloc::Global;
use table_images::is_blank;

/// What each page of an index is looked at by.
#[derive(Drop)]
pub struct IndexTree {
    /// Whether the header page isn't all zeros.
    pub formatted: bool,
    /// The number of the next free page.
    pub next: u32,
    /// What the pages from page 1 on say as branches and leaves.
    pub nodes: Vec<Node>,
    /// The pages to the right of leaves.
    pub rights: SpotMap<bool>,
    /// The slots of the table's heap that were given.
    pub given: Vec<Given>,
    /// Their places, by key.
    pub places: SpotMap<Place>,
}

// How many of the pages before this next free one the records may change.
fn node_count(table: TableId, records: &RedonePages, next: u32) -> u32
    ensures exact { result ≡ min (next - 1) (last_in_records (index_set table) 0 records.now.records) }
    ensures below { result < 2 ^ 32 - 1 }
{
    let last = next.saturating_sub(1);
    let greatest = records.last(table.index_set());
    if greatest < last { greatest } else { last }
}

/// The tree of the table's index after the records, where these slots of its heap were given.
pub fn read_tree(
    alloc: Global,
    table: TableId,
    records: &RedonePages,
    given: Vec<Given>,
) -> Result<IndexTree, NoMemory>
    requires table { HasTable records.now.range table }
    ensures { IfOk result (λ tree. IsTreeOf (images_of records.now.records) records.now.records table given.items tree) }
{
    let header = records.image(alloc, table.index_page(0))?;
    let next = next_page(&header);
    let count = node_count(table, records, next);
    let nodes = read_nodes(alloc, table, records, count + 1)?;
    let rights = rights_of(alloc, table, &nodes)?;
    let places = places_of(alloc, table, &given)?;
    Ok(IndexTree {
        formatted: !is_blank(&header),
        next,
        nodes,
        rights,
        given,
        places,
    })
}
