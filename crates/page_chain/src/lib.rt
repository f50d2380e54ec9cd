//! Pages as versions of the log: what records make of them one after the other, and what redo makes of a page that has had
//! some of them.
//!
//! The crate has definitions and proofs alone. Its functions do nothing: their contracts are the laws.
#![tactic(auto)]

ghost use Rattle.page_chain.specs.Chains.{GrowsByRecords, LeavesOthers, BearsItsNumber, RedoReaches, NumberTells};

/// A record changes the pages of its patches and no other, and a page bears the number of the last record that changed it.
pub fn chain_laws()
    ensures grows { GrowsByRecords }
    ensures others { LeavesOthers }
{
    page_images::written_laws();
}

/// Redo by the numbers of pages leads from each version of a page to its last one, and a version needs no record above its
/// own number.
pub fn redo_laws()
    ensures number { BearsItsNumber }
    ensures redo { RedoReaches }
    ensures stable { NumberTells }
{
    page_images::front_laws();
    page_images::header_laws();
    page_images::written_laws();
}
