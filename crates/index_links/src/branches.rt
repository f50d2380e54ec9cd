ghost use Rattle.std.specs.Prelude.{◌≡◌};
ghost use Rattle.std.specs.List.{list_all};
ghost use Rattle.index_links.specs.Links.{leads_down, starts, entries_stand};

use crate::links::{is_at, node_at};
use crate::nodes::Node;
use ds_base::Key;
use index_leaf::Entry;

// The entry of a branch leads to the leaf that begins at its key.
fn leads_down(nodes: &[Node], entry: Entry) -> bool
    ensures { result ≡ leads_down nodes.now entry }
{
    is_at(node_at(nodes, entry.place.page), false, entry.key)
}

fn all_lead_down(nodes: &[Node], entries: &[Entry]) -> bool
    ensures { result ≡ list_all (leads_down nodes.now) entries.now }
{
    for entry in entries {
        if !leads_down(nodes, *entry) {
            return false;
        }
    }
    true
}

fn starts(low: Key, entries: &[Entry]) -> bool
    ensures { result ≡ starts low entries.now }
{
    match entries.first() {
        None => false,
        Some(entry) => entry.key == low,
    }
}

/// Whether the page is no branch, or its entries lead to leaves by their low keys, the first at the branch's own.
pub fn entries_stand(nodes: &[Node], node: &Node, entries: &[Entry]) -> bool
    ensures { result ≡ entries_stand nodes.now node.now entries.now }
{
    !node.is_branch || (starts(node.low, entries) && all_lead_down(nodes, entries))
}
