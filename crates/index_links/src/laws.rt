ghost use Rattle.index_links.specs.Opens.{LinkedOpens};

use page_chain::chain_laws;
use page_images::header_laws;

/// Of an index whose pages are right by themselves: each branch and leaf is linked exactly where the machine of the index opens.
pub fn linked_laws()
    ensures { LinkedOpens }
{
    chain_laws();
    header_laws();
}
