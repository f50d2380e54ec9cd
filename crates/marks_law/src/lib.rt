//! What no event of a member changes: that its slots with transactions are those of its agents, and that an agent without a
//! transaction has no claims; and its claims, where no lock is taken or given up.
//!
//! The crate has definitions and proofs alone. Its functions do nothing: their contracts are the theorems.
#![tactic(auto)]

ghost use Rattle.marks_law.specs.Claims.{ClaimsStay};
ghost use Rattle.marks_law.specs.Free.{FreeAdopt, FreeBegin, FreeReach, FreeStay};
ghost use Rattle.marks_law.specs.Slots.{SlotsAdopt, SlotsBegin, SlotsReach, SlotsStay, SlotsTell};
ghost use Rattle.marks_law.specs.Transactions.{EventsStay, MovesStay};

/// Slot 0 of a member, which is its own, is always free, so a slot with a transaction is an agent's.
pub fn slots_stay()
    ensures tell { SlotsTell }
    ensures begin { SlotsBegin }
    ensures event { SlotsStay }
    ensures local { SlotsReach }
    ensures adopted { SlotsAdopt }
{}

/// An agent without a transaction has no claims: they go where its transaction ends, or is a rollback from then on, and none is
/// entered before the next one goes forward.
pub fn free_slots_stay()
    ensures begin { FreeBegin }
    ensures event { FreeStay }
    ensures local { FreeReach }
    ensures adopted { FreeAdopt }
{}

/// An event in which no lock is taken or given up leaves the claims as they were, but for the local moves that follow it.
pub fn claims_stay()
    ensures { ClaimsStay }
{}

/// Where no lock is taken or given up, and no transaction ends or is postponed, each slot keeps its transaction, by the number of its first
/// record, and each rollback stays.
pub fn transactions_stay()
    ensures event { EventsStay }
    ensures local { MovesStay }
{}
