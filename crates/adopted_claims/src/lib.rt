//! That what the restart of a member hands over to it has, in the world of locks, the claims that the member needs for it.
//!
//! The crate has definitions and proofs alone. Its functions do nothing: their contracts are the theorems.
#![tactic(auto)]

ghost use Rattle.adopted_claims.specs.Rows.{AdoptedHave, RowsTouched};

use restart_claims::claims_tell;

/// The rows for which a member takes over a transaction are those that the transaction has changed; so where what the restart has left open
/// has its claims, so has what it hands over on these rows.
pub fn adopted_have_claims()
    ensures rows { RowsTouched }
    ensures claims { AdoptedHave }
{
    claims_tell();
}
