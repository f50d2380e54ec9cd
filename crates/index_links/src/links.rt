ghost use Rattle.std.specs.Prelude.{◌≡◌, IfOk, OnOk};
ghost use Rattle.std.specs.FinMap as finite;
ghost use Rattle.table_pages.specs.Kinds.{both_or_neither};
ghost use Rattle.index_links.specs.Links.{node_at, is_at, begins, leads_on, has_right, with_right, rights_from, reached_in, node_stands};

use crate::nodes::Node;
use ds_base::{Key, NoMemory, TableId};
use spot_map::SpotMap;
use std::alloc::Global;

fn same(a: bool, b: bool) -> bool
    ensures { result ≡ both_or_neither a b }
{
    if a { b } else { !b }
}

/// The node of this page number, from 1 on.
pub fn node_at(nodes: &[Node], number: u32) -> Option<Node>
    ensures { result ≡ node_at nodes.now number }
{
    match number.checked_sub(1) {
        None => None,
        Some(at) => nodes.get(at as usize).copied(),
    }
}

/// Whether there is a node of this kind with this low key.
pub fn is_at(node: Option<Node>, is_branch: bool, low: Key) -> bool
    ensures { result ≡ is_at node is_branch low }
{
    match node {
        None => false,
        Some(node) => same(node.is_branch, is_branch) && node.low == low,
    }
}

// The first branch and the first leaf are pages 1 and 2, and begin at key 0; the others begin at later keys.
fn begins(number: u32, node: &Node) -> bool
    ensures { result ≡ begins number node.now }
{
    match number {
        1 => node.is_branch && node.low == 0,
        2 => !node.is_branch && node.low == 0,
        _ => 0 < node.low,
    }
}

// The link leads to a page of the same kind that begins where this one ends.
fn leads_on(nodes: &[Node], node: &Node) -> bool
    ensures { result ≡ leads_on nodes.now node.now }
{
    match node.high {
        None => true,
        Some(high) => node.low < high && is_at(node_at(nodes, node.right), node.is_branch, high),
    }
}

fn has_right(node: &Node) -> bool
    ensures { result ≡ has_right node.now }
{
    !node.is_branch && node.high.is_some()
}

fn put_right(rights: &mut SpotMap<bool>, table: TableId, node: &Node) -> Result<(), NoMemory>
    ensures { OnOk result (rights.new ≡ with_right table rights.old node.now) }
{
    if has_right(node) {
        rights.insert(table, node.right as u64, true)
    } else {
        Ok(())
    }
}

/// The pages to the right of leaves.
pub fn rights_of(alloc: Global, table: TableId, nodes: &[Node]) -> Result<SpotMap<bool>, NoMemory>
    ensures { IfOk result (λ rights. rights ≡ rights_from table finite.empty nodes.now) }
{
    let mut rights = SpotMap::new(alloc);
    for node in nodes {
        put_right(&mut rights, table, node)?;
    }
    Ok(rights)
}

fn is_reached(rights: &SpotMap<bool>, table: TableId, number: u32) -> bool
    ensures { result ≡ reached_in rights.now table number }
{
    rights.get(table, number as u64).is_some()
}

/// Whether the page of this number is right in its low key and its link, and in its place in the row of leaves.
pub fn node_stands(
    nodes: &[Node],
    rights: &SpotMap<bool>,
    table: TableId,
    number: u32,
    node: &Node,
) -> bool
    ensures { result ≡ node_stands nodes.now (reached_in rights.now table number) number node.now }
{
    begins(number, node)
        && leads_on(nodes, node)
        && (node.is_branch || number == 2 || is_reached(rights, table, number))
}
