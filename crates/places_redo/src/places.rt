ghost use Rattle.std.specs.Prelude.{◌≡◌, false, slice_get};
ghost use Rattle.page_redo.specs.Forward.{forward_from};
ghost use Rattle.places_redo.specs.Picked.{picked, one_of, forward_at, brought_at};

use ds_base::PageId;
use ds_model::LogRecord;
use page_format::Page;
use page_redo::{FieldFault, bring_record};

// Applies the record at this place, where there is one.
fn bring_at(
    page: &mut Page,
    id: PageId,
    records: &[LogRecord],
    place: usize,
) -> Result<bool, FieldFault>
    ensures outcome { result ≡ (one_of id page.old (slice_get records.now place)).outcome }
    ensures page { page.new ≡ (one_of id page.old (slice_get records.now place)).page }
{
    match records.get(place) {
        Some(it) => bring_record(page, id, it),
        None => Ok(false),
    }
}

fn bring_each(
    page: &mut Page,
    id: PageId,
    records: &[LogRecord],
    places: &[usize],
) -> Result<bool, FieldFault>
    ensures outcome { result ≡ (forward_at id records.now page.old false places.now).outcome }
    ensures page { page.new ≡ (forward_at id records.now page.old false places.now).page }
{
    let mut is_raised = false;
    for place in places {
        is_raised |= bring_at(page, id, records, *place)?;
    }
    Ok(is_raised)
}

// Whatever the page's header says.
#[tactic(auto, using(crate::proofs::Picking::at_picked))]
fn bring_picked(
    page: &mut Page,
    id: PageId,
    records: &[LogRecord],
    places: &[usize],
) -> Result<bool, FieldFault>
    ensures outcome { result ≡ (forward_from id page.old false (picked records.now places.now)).outcome }
    ensures page { page.new ≡ (forward_from id page.old false (picked records.now places.now)).page }
{
    bring_each(page, id, records, places)
}

/// Brings the page of this name forward by the records at these places, in their order: applies those that change it and
/// are above its number. Whether there was one, or the first field in the way. It takes no memory.
#[tactic(auto, unfolding(crate::specs::Picked::brought_at))]
pub fn bring_places(
    page: &mut Page,
    id: PageId,
    records: &[LogRecord],
    places: &[usize],
) -> Result<bool, FieldFault>
    ensures outcome { result ≡ (brought_at id page.old records.now places.now).outcome }
    ensures page { page.new ≡ (brought_at id page.old records.now places.now).page }
{
    if let Err(fault) = page.read_header(id) {
        return Err(FieldFault { at: fault.at });
    }
    bring_picked(page, id, records, places)
}
