ghost use Rattle.std.specs.Prelude.{◌≡◌, slice_get};
ghost use Rattle.std.specs.List.{AllByRecursion};
ghost use Rattle.ds_model.specs.RecordBytes.{IsAllowed};
ghost use Rattle.page_chain.specs.Chains.{version_from};
ghost use Rattle.page_records.specs.Places.{by_page};
ghost use Rattle.page_versions.specs.Own.{Rise, places_at, after_place, version_at};

use crate::apply::apply_record;
use ds_base::PageId;
use ds_model::LogRecord;
use page_chain::chain_laws;
use page_format::Page;
use page_records::PageRecords;
use std::cmp::Ordering;

/// The places that the list, whose pages rise, has for the page.
///
/// It takes time in the logarithm of their number.
pub fn places_at<'a>(id: PageId, pages: &'a [PageRecords]) -> &'a [usize]
    requires { Rise pages.now }
    ensures { result.now ≡ places_at id pages.now }
{
    if pages.is_empty() {
        return &[];
    }
    let middle = pages.len() / 2;
    let own = &pages[middle];
    match id.cmp(&own.page) {
        Ordering::Less => places_at(id, &pages[..middle]),
        Ordering::Equal => own.places.as_slice(),
        Ordering::Greater => places_at(id, &pages[middle + 1..]),
    }
}

/// The page of this name after the record at this place, where there is one.
#[tactic(auto, using(crate::proofs::Fitting::fits_at))]
pub fn apply_at(page: &mut Page, id: PageId, records: &[LogRecord], place: usize)
    requires { AllByRecursion IsAllowed records.now }
    ensures { page.new ≡ after_place id page.old (slice_get records.now place) }
{
    match records.get(place) {
        Some(it) => apply_record(page, id, it),
        None => {}
    }
}

fn apply_each(page: &mut Page, id: PageId, records: &[LogRecord], places: &[usize])
    requires { AllByRecursion IsAllowed records.now }
    ensures { page.new ≡ version_at id records.now page.old places.now }
{
    for place in places {
        apply_at(page, id, records, *place);
    }
}

/// The page of this name after all records. `changed` are the pages that they change.
pub fn apply_all(page: &mut Page, id: PageId, records: &[LogRecord], changed: &[PageRecords])
    requires allowed { AllByRecursion IsAllowed records.now }
    requires changed_pages { changed.now ≡ by_page records.now }
    ensures { page.new ≡ version_from id page.old records.now }
{
    chain_laws();
    apply_each(page, id, records, places_at(id, changed));
}
