//! Which records an event of a member puts in its log buffer: those of the number that was drawn in it, for what was planned. They are allowed,
//! and so are the records of the buffer. A member that has no transaction and claims no page puts none.
//!
//! The crate has definitions and proofs alone. Its functions do nothing: their contracts are the theorems.
#![tactic(auto)]

ghost use Rattle.put_records.specs.Puts.{
  AllowedBegin,
  AllowedReach,
  AllowedStay,
  EventsPut,
};
ghost use Rattle.put_records.specs.Resting.{LocalsLeave, NothingIsPut, NothingWaits};

use needs_law::sends_lawfully;

/// An event puts these records behind those of the buffer, or an append that was done has left none.
pub fn events_put()
    ensures { EventsPut }
{}

/// The buffer of a member that holds nothing has records that are allowed, none; so it is behind local moves, and behind each event.
pub fn buffers_stay()
    ensures begin { AllowedBegin }
    ensures event { AllowedStay }
    ensures local { AllowedReach }
{}

/// An event of a member none of whose slots has a transaction, and which claims no page, puts no record: so where nothing waits in its log
/// buffer, nothing does behind it. Local moves leave the buffer.
pub fn resting_puts_none()
    ensures event { NothingIsPut }
    ensures waits { NothingWaits }
    ensures local { LocalsLeave }
{
    sends_lawfully();
}
