ghost use Rattle.std.specs.Prelude.{◌≡◌, map, OnOk, IfOk};
ghost use Rattle.std.specs.FinMap as finite;
ghost use Rattle.page_redo.specs.Pages.{pages_of};
ghost use Rattle.page_records.specs.Places.{with_place, with_places, places_from, page_records, by_page};

use crate::map::PageMap;
use ds_base::{NoMemory, PageId, Sequence};
use ds_model::LogRecord;
use page_redo::pages_of;
use std::alloc::Global;

/// A page, and the places in a list of records of those that change it, which rise.
#[derive(Debug, Drop)]
pub struct PageRecords {
    pub page: PageId,
    pub places: Sequence<usize>,
}

#[tactic(auto, using(crate::proofs::Maps::put_back))]
fn add_place(
    alloc: Global,
    places: &mut PageMap<Sequence<usize>>,
    place: usize,
    id: PageId,
) -> Result<(), NoMemory>
    ensures { OnOk result (places.new ≡ with_place place places.old id) }
{
    let mut own = match places.take(id) {
        Some(own) => own,
        None => Sequence::new(alloc),
    };
    own.push(place)?;
    places.put(id, own)
}

fn add_places(
    alloc: Global,
    places: &mut PageMap<Sequence<usize>>,
    place: usize,
    pages: &[PageId],
) -> Result<(), NoMemory>
    ensures { OnOk result (places.new ≡ with_places place places.old pages.now) }
{
    for id in pages {
        add_place(alloc, places, place, *id)?;
    }
    Ok(())
}

fn add_record(
    alloc: Global,
    places: &mut PageMap<Sequence<usize>>,
    place: usize,
    it: &LogRecord,
) -> Result<(), NoMemory>
    ensures { OnOk result (places.new ≡ with_places place places.old (pages_of it.now)) }
{
    let pages = pages_of(alloc, it)?;
    add_places(alloc, places, place, pages.as_slice())
}

fn places_of(alloc: Global, records: &[LogRecord]) -> Result<PageMap<Sequence<usize>>, NoMemory>
    ensures { IfOk result (λ places. places ≡ places_from 0 finite.empty records.now) }
{
    let mut places = PageMap::new(alloc);
    for (place, it) in records.iter().enumerate() {
        add_record(alloc, &mut places, place, it)?;
    }
    Ok(places)
}

fn listed(
    alloc: Global,
    entries: Sequence<(PageId, Sequence<usize>)>,
) -> Result<Sequence<PageRecords>, NoMemory>
    ensures { IfOk result (λ pages. pages ≡ map page_records entries) }
{
    let mut pages = Sequence::new(alloc);
    for (page, places) in entries.into_vec() {
        pages.push(PageRecords { page, places })?;
    }
    Ok(pages)
}

/// The pages that the records change, in the order of their names, each with the places of the records that change it.
///
/// It takes time in the number of changed pages of all records times its logarithm.
pub fn by_page(alloc: Global, records: &[LogRecord]) -> Result<Sequence<PageRecords>, NoMemory>
    ensures { IfOk result (λ pages. pages ≡ by_page records.now) }
{
    let places = places_of(alloc, records)?;
    listed(alloc, places.into_list(alloc)?)
}
