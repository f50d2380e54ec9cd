//! That the claims of a member which has failed can be handed over, by moves that change nothing else, to the rollbacks that its transactions
//! are from then on: each has the claims on all rows that its transaction had locked.
//!
//! The crate has definitions and proofs alone. Its functions do nothing: their contracts are the theorems.
#![tactic(auto)]

ghost use Rattle.failed_claims.specs.Failing.{FailureLeaves, HandsOver, RowsOutlive};

use log_numbers::names_are_apart;

/// So it is in a world whose claims of the member are those that it had as it failed, as far as a failure leaves them: those of a slot are
/// handed on to the rollback which has the name of its transaction. No two transactions have one name.
pub fn claims_handed_over()
    ensures { HandsOver }
{
    names_are_apart();
}

/// Where a member that was up fails, its claims are left so; and each claim on a row outlives a failure.
pub fn failures_leave()
    ensures leaves { FailureLeaves }
    ensures rows { RowsOutlive }
{}
