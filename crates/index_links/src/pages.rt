ghost use Rattle.std.specs.Prelude.{◌≡◌, IfOk};
ghost use Rattle.std.specs.FinMap as finite;
ghost use Rattle.sound_disk.specs.Indexes.{IsNodePage};
ghost use Rattle.index_links.specs.Links.{rights_from, is_linked};

use crate::branches::entries_stand;
use crate::entries::entries_in;
use crate::links::node_stands;
use crate::nodes::{Node, node_of};
use ds_base::{NoMemory, PageId, TableId};
use page_format::Page;
use spot_map::SpotMap;
use std::alloc::Global;

/// Whether a branch or a leaf of the table's index, which is right by itself, is right in its low key, its link and its entries,
/// and in its place in the row of leaves.
pub fn is_linked(
    alloc: Global,
    table: TableId,
    nodes: &[Node],
    rights: &SpotMap<bool>,
    id: PageId,
    page: &Page,
) -> Result<bool, NoMemory>
    requires rights { rights.now ≡ rights_from table finite.empty nodes.now }
    requires page { IsNodePage id page.now }
    ensures { IfOk result (λ linked. linked ≡ is_linked table nodes.now id.number page.now) }
{
    let node = node_of(page);
    let entries = entries_in(alloc, page)?;
    Ok(node_stands(nodes, rights, table, id.number, &node) && entries_stand(nodes, &node, &entries))
}
