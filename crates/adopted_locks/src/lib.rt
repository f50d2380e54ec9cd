//! That a member which takes over a transaction from its restart has locked each row that the transaction has changed, as its rollback.
//!
//! The crate has definitions and proofs alone. Its functions do nothing: their contracts are the theorems.
#![tactic(auto)]

ghost use Rattle.adopted_locks.specs.Locks.{AdoptionsLock};

use lock_world::{books_change, books_tell, names_have_numbers, rollbacks_change};

/// So it is behind each rollback that is adopted, where slot 1, which lends its place, has no claims; and what others had locked they still
/// have.
pub fn adoptions_lock()
    ensures { AdoptionsLock }
{
    names_have_numbers();
    books_tell();
    books_change();
    rollbacks_change();
}
