//! The page in hand, brought forward by the own log.

ghost use Rattle.std.specs.Prelude.{◌≡◌};
ghost use Rattle.restart_resources.specs.Forward.{own_forward};

use ds_base::PageId;
use page_format::Page;
use page_redo::FieldFault;
use places_redo::bring_places;
use restart_marks::RestartMarks;

/// Brings the page forward by the own log: applies those of its records that change it and are above its number. Whether
/// there was one, or the first field in the way.
pub fn bring_own(page: &mut Page, id: PageId, marks: &RestartMarks) -> Result<bool, FieldFault>
    ensures outcome { result ≡ (own_forward id page.old marks.now).outcome }
    ensures page { page.new ≡ (own_forward id page.old marks.now).page }
{
    match marks.places(id) {
        Some(places) => bring_places(page, id, marks.records(), places.as_slice()),
        None => bring_places(page, id, marks.records(), &[]),
    }
}
