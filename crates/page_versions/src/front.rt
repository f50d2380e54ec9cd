ghost use Rattle.std.specs.Prelude.{◌≡◌, ◌↔◌, IfOk, IsTrue};
ghost use Rattle.std.specs.List.{AllByRecursion};
ghost use Rattle.std.specs.Str.{bytes_eq};
ghost use Rattle.ds_model.specs.RecordBytes.{IsAllowed};
ghost use Rattle.sound_disk.specs.Versions.{current};
ghost use Rattle.page_chain.specs.Chains.{version_of, IsVersion};
ghost use Rattle.page_records.specs.Places.{by_page};
ghost use Rattle.page_versions.specs.Fronts.{has_header, IsPlaced, PlacedMayStand};
ghost use Rattle.page_versions.specs.Own.{Rise, places_at, is_later_at, is_from_at};

use crate::places::{apply_all, apply_at, places_at};
use ds_base::{NoMemory, PageId};
use ds_model::LogRecord;
use page_chain::chain_laws;
use page_format::Page;
use page_records::PageRecords;
use std::alloc::Global;

fn is_same(a: &Page, b: &Page) -> bool
    ensures { result ≡ bytes_eq a.now b.now }
{
    a.bytes().as_slice() == b.bytes().as_slice()
}

// By the records at these places, from the first on.
fn is_later(
    id: PageId,
    records: &[LogRecord],
    places: &[usize],
    image: &mut Page,
    page: &Page,
) -> bool
    requires { AllByRecursion IsAllowed records.now }
    ensures { result ≡ is_later_at id records.now page.now image.old places.now }
{
    for place in places {
        apply_at(image, id, records, *place);
        if is_same(image, page) {
            return true;
        }
    }
    false
}

// A page that is the image already isn't looked up.
fn is_from(
    id: PageId,
    records: &[LogRecord],
    changed: &[PageRecords],
    image: &mut Page,
    page: &Page,
) -> bool
    requires allowed { AllByRecursion IsAllowed records.now }
    requires rise { Rise changed.now }
    ensures { result ≡ is_from_at id records.now page.now image.old (places_at id changed.now) }
{
    is_same(image, page) || is_later(id, records, places_at(id, changed), image, page)
}

/// The page of this name as the records make it of a page of zeros. `changed` are the pages that they change.
///
/// It takes time in the logarithm of their number, and in the number of the page's own records.
pub fn image_of(
    alloc: Global,
    id: PageId,
    records: &[LogRecord],
    changed: &[PageRecords],
) -> Result<Page, NoMemory>
    requires allowed { AllByRecursion IsAllowed records.now }
    requires changed_pages { changed.now ≡ by_page records.now }
    ensures { IfOk result (λ page. page ≡ version_of id records.now) }
{
    let mut page = Page::zero(alloc)?;
    apply_all(&mut page, id, records, changed);
    Ok(page)
}

/// Whether the page is a version: what a front of these records makes of a page of zeros. `changed` are the pages that they change.
///
/// It takes time in the logarithm of their number, and in the number of the page's own records.
pub fn is_version(
    alloc: Global,
    id: PageId,
    records: &[LogRecord],
    changed: &[PageRecords],
    page: &Page,
) -> Result<bool, NoMemory>
    requires allowed { AllByRecursion IsAllowed records.now }
    requires changed_pages { changed.now ≡ by_page records.now }
    ensures { IfOk result (λ b. IsTrue b ↔ IsVersion id records.now page.now) }
{
    chain_laws();
    let mut image = Page::zero(alloc)?;
    Ok(is_from(id, records, changed, &mut image, page))
}

fn has_header(id: PageId, renews: bool, page: &Page) -> bool
    ensures { result ≡ has_header id renews page.now }
{
    page.read_header(id).is_ok() && (!page.is_old() || renews)
}

fn renew_old(page: &mut Page)
    ensures { page.new ≡ current page.old }
{
    if page.is_old() {
        page.renew();
    }
}

/// Whether the page may stand on a disk with these merged records: its header may be the page's, and it is a version. One of
/// version 1 may only where a group restart still renews pages. It is left in version 2. `changed` are the pages that the records
/// change.
pub fn is_placed(
    alloc: Global,
    id: PageId,
    records: &[LogRecord],
    changed: &[PageRecords],
    renews: bool,
    page: &mut Page,
) -> Result<bool, NoMemory>
    requires allowed { AllByRecursion IsAllowed records.now }
    requires changed_pages { changed.now ≡ by_page records.now }
    ensures placed { IfOk result (λ b. IsTrue b ↔ IsPlaced id records.now renews page.old) }
    ensures page { page.new ≡ current page.old }
{
    let may_stand = has_header(id, renews, page);
    renew_old(page);
    if !may_stand {
        return Ok(false);
    }
    is_version(alloc, id, records, changed, page)
}

/// What may stand by the merged records of logs is what the third clause of a sound disk says of a page.
pub fn version_laws()
    ensures { PlacedMayStand }
{}
