ghost use Rattle.std.specs.Prelude.{◌≡◌, ◌-◌, ◌≤◌, IfOk};
ghost use Rattle.index_leaf.specs.Entries.{right_field};
ghost use Rattle.index_leaf.specs.Search.{is_branch};
ghost use Rattle.page_chain.specs.Chains.{images_of, version_of};
ghost use Rattle.redone_pages.specs.Ranges.{HasTable, HasPage};
ghost use Rattle.index_links.specs.Nodes.{node_of, nodes_from};

use ds_base::{Key, NoMemory, PageId, TableId};
use index_leaf::{high_key, low_key, right};
use page_format::Page;
use redone_pages::RedonePages;
use std::alloc::Global;

/// What a branch or a leaf says beside its entries.
#[derive(Clone, Copy, Debug)]
pub struct Node {
    pub is_branch: bool,
    pub low: Key,
    pub high: Option<Key>,
    /// The number of the page to the right, 0 where there is none.
    pub right: u32,
}

fn is_branch(page: &Page) -> bool
    ensures { result ≡ is_branch page.now }
{
    page.bytes()[4] == 4
}

fn right_number(page: &Page) -> u32
    ensures { result ≡ right_field page.now }
{
    match right(page) {
        None => 0,
        Some(number) => number,
    }
}

/// What the page says, if it is a branch or a leaf.
pub fn node_of(page: &Page) -> Node
    ensures { result ≡ node_of page.now }
{
    Node {
        is_branch: is_branch(page),
        low: low_key(page),
        high: high_key(page),
        right: right_number(page),
    }
}

fn read_node(alloc: Global, id: PageId, records: &RedonePages) -> Result<Node, NoMemory>
    requires { HasPage records.now.range id }
    ensures { IfOk result (λ node. node ≡ node_of (version_of id records.now.records)) }
{
    let page = records.image(alloc, id)?;
    Ok(node_of(&page))
}

/// What the pages of the table's index from page 1 on and before the next free one say after the records.
pub fn read_nodes(
    alloc: Global,
    table: TableId,
    records: &RedonePages,
    next: u32,
) -> Result<Vec<Node>, NoMemory>
    requires table { HasTable records.now.range table }
    requires some { 1 ≤ next }
    ensures { IfOk result (λ nodes. nodes.items ≡ nodes_from (images_of records.now.records) table 1 (next - 1)) }
{
    let mut nodes = Vec::new(alloc);
    for number in 1..next {
        nodes.push(read_node(alloc, table.index_page(number), records)?)?;
    }
    Ok(nodes)
}
