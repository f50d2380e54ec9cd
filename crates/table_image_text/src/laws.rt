//! What images keep to. The function does nothing: it is called where its facts are needed.

ghost use Rattle.table_image_text.specs.Laws.{WrittenIsRead};

/// The image of pages that may stand in one has no fault where its number is known, and has these pages at their places.
pub fn image_laws()
    ensures { WrittenIsRead }
{}
