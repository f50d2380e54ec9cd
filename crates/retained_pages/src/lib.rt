//! The page locks that the facility has retained for members: what leaves them, and that nobody else is granted one.
//!
//! The crate has definitions and proofs alone. Its functions do nothing: their contracts are the theorems.
#![tactic(auto)]

ghost use Rattle.retained_pages.specs.Retained.{CommandsRetain, CommandsSpare, FailuresRetain, FailuresSpare, GrantsNone, ObtainsNone};

/// Any command of any member, and the failure of any, leaves each page lock that is retained in X, but that of the member itself whose record
/// the command frees; and all records of all other members.
pub fn commands_retain()
    ensures command { CommandsRetain }
    ensures spare { CommandsSpare }
    ensures failure { FailuresRetain }
    ensures failed { FailuresSpare }
{}

/// A page whose lock is retained in X is granted to nobody but the member that has it.
pub fn retained_pages_keep_out()
    ensures obtain { ObtainsNone }
    ensures grant { GrantsNone }
{}
