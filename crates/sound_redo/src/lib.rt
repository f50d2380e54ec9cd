//! What redo meets on the pages of a sound disk.
//!
//! The crate has definitions and proofs alone. Its function does nothing: its contract is the law.
#![tactic(auto)]

ghost use Rattle.sound_redo.specs.Laws.{NoneIsInTheWay};

/// Where a restart of the group brings a page of a sound disk forward, no field is in the way of a record.
pub fn forward_laws()
    ensures { NoneIsInTheWay }
{
    sound_disk::page_laws();
    page_chain::chain_laws();
    page_chain::redo_laws();
    page_images::header_laws();
}
