ghost use Rattle.std.specs.Prelude.{◌≡◌};
ghost use Rattle.kept_pages.specs.Unkept.{page_spot};

use disk_spots::Spot;
use ds_base::PageId;

/// The spot of a page.
pub fn page_spot(found: Option<PageId>) -> Option<Spot>
    ensures { result ≡ page_spot found }
{
    match found {
        None => None,
        Some(id) => Some(Spot::Page { id }),
    }
}
