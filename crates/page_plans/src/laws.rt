//! Of which pages plans are. The function does nothing: it is called where its facts are needed.

ghost use Rattle.page_plans.specs.Pages.{PatchesAreOfPages, LooksLeadOn};

/// Each look leads to the next page of its action, and each patch of a plan is one of a page of its action.
pub fn page_laws()
    ensures patches { PatchesAreOfPages }
    ensures looks { LooksLeadOn }
{}
