//! That each row which the log of a member has changed is locked by its transaction, or closed, behind what the member takes over from its
//! restart, where it was so of all others before.
//!
//! The crate has definitions and proofs alone. Its functions do nothing: their contracts are the theorems.
#![tactic(auto)]

ghost use Rattle.adopted_rows.specs.Rows.{RowsTakenOver};

use adopted_locks::adoptions_lock;
use marks_law::slots_stay;

/// So `row_claims` holds of it again, where each row that the log has changed was closed, or locked, or one of the transactions that are
/// taken over has changed it.
pub fn rows_taken_over()
    ensures { RowsTakenOver }
{
    adoptions_lock();
    slots_stay();
}
