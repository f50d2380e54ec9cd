//! What pages that are brought forward keep to. The function does nothing: it is called where its facts are needed.

ghost use Rattle.page_redo.specs.Forward.{IsRedo, ReachesLast, NeedsItsOwn};

/// Where no field is in the way, the records of a log bring a page forward as redo by the numbers of pages does, and so
/// from each of its versions to the last one. Records that don't change the page may be left out.
pub fn forward_laws()
    ensures redo { IsRedo }
    ensures last { ReachesLast }
    ensures own { NeedsItsOwn }
{
    page_chain::redo_laws();
    page_chain::chain_laws();
}
