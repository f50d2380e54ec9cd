ghost use Rattle.std.specs.Prelude.{◌≡◌, ◌↔◌, IfOk, IsTrue};
ghost use Rattle.std.specs.FinMap as finite;
ghost use Rattle.page_chain.specs.Chains.{images_of};
ghost use Rattle.redone_pages.specs.Ranges.{HasTable};
ghost use Rattle.sound_disk.specs.Indexes.{IsNodePage};
ghost use Rattle.index_links.specs.Links.{rights_from};
ghost use Rattle.index_places.specs.Placing.{AreGiven, AreByKey};
ghost use Rattle.index_places.specs.Trees.{node_passes, Passes};
ghost use Rattle.index_places.specs.Whole.{IsIndexFound};

use crate::leaves::leaf_stands;
use crate::slots::Given;
use crate::tree::{IndexTree, read_tree};
use ds_base::{NoMemory, PageId, TableId};
use index_links::is_linked;
use page_format::Page;
use redone_pages::RedonePages;
use std::alloc::Global;
use table_images::{index_end, index_page_stands};

fn node_passes(
    alloc: Global,
    table: TableId,
    tree: &IndexTree,
    id: PageId,
    page: &Page,
) -> Result<bool, NoMemory>
    requires rights { tree.now.rights ≡ rights_from table finite.empty tree.now.nodes.items }
    requires order { AreByKey tree.now.given.items }
    requires page { IsNodePage id page.now }
    ensures { IfOk result (λ passes. passes ≡ node_passes tree.now table id.number page.now) }
{
    if !is_linked(alloc, table, &tree.nodes, &tree.rights, id, page)? {
        return Ok(false);
    }
    leaf_stands(alloc, table, id, page, &tree.places, &tree.given)
}

fn passes(
    alloc: Global,
    table: TableId,
    tree: &IndexTree,
    id: PageId,
    page: &Page,
) -> Result<bool, NoMemory>
    requires rights { tree.now.rights ≡ rights_from table finite.empty tree.now.nodes.items }
    requires order { AreByKey tree.now.given.items }
    ensures { IfOk result (λ passes. IsTrue passes ↔ Passes tree.now table id page.now) }
{
    if !index_page_stands(page, id, tree.formatted, tree.next) {
        return Ok(false);
    }
    if !tree.formatted {
        return Ok(id.number != 1 || tree.given.is_empty());
    }
    if id.number == 0 || tree.next <= id.number {
        return Ok(true);
    }
    node_passes(alloc, table, tree, id, page)
}

/// The first page of the table's index that isn't right, where these slots of its heap were given, in the order of their keys: by itself, in its links,
/// entries or place in the row of leaves, or as a leaf that doesn't have exactly the places of its keys. Of an index that isn't
/// formatted though slots were given page 1 isn't right.
///
/// It goes over the pages up to the last one that the records change. Each takes time in the logarithm of the number of pages; a
/// leaf takes time in the logarithm of the number of the slots too, and in the number of those that were given to its keys.
pub fn find_wrong_index_page(
    alloc: Global,
    table: TableId,
    records: &RedonePages,
    given: Vec<Given>,
) -> Result<Option<PageId>, NoMemory>
    requires table { HasTable records.now.range table }
    requires given { AreGiven (images_of records.now.records) table given.items }
    requires order { AreByKey given.items }
    ensures { IfOk result (λ found. IsIndexFound (images_of records.now.records) records.now.records table found) }
{
    let tree = read_tree(alloc, table, records, given)?;
    for number in 0..index_end(table, records, tree.next) {
        let id = table.index_page(number as u32);
        let page = records.image(alloc, id)?;
        if !passes(alloc, table, &tree, id, &page)? {
            return Ok(Some(id));
        }
    }
    Ok(None)
}
