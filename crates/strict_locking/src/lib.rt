//! Locking of a member in two phases: what a transaction has locked to change it stays locked by it until it is over, that is until it is
//! decided, or is taken back with its last record on disk.
//!
//! The crate has definitions and proofs alone. Its functions do nothing: their contracts are the theorems.
#![tactic(auto)]

ghost use Rattle.strict_locking.specs.Keeping.{ChangesLock, EventsKeep, MovesKeep};

use lock_world::{books_change, books_tell, rollbacks_change};
pub use marks_law::slots_stay;
use marks_law::transactions_stay;
use needs_law::sends_lawfully;

/// In an event of a member each row that a transaction has locked in X, with its table space, stays locked by that transaction, if it isn't
/// over before the event; and so it does in all local moves of the policy, also where its rollback is postponed. Pages are changed for a row
/// only by a transaction that has locked it so.
pub fn locks_stay()
    ensures event { EventsKeep }
    ensures local { MovesKeep }
    ensures change { ChangesLock }
{
    books_tell();
    books_change();
    rollbacks_change();
    slots_stay();
    transactions_stay();
    sends_lawfully();
}
