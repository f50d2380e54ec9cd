//! Which rows the records of a log change, and for which transactions; which transactions they close; and what the transactions that they
//! leave open are to them.
//!
//! The crate has definitions and proofs alone. Its functions do nothing: their contracts are the theorems.
#![tactic(auto)]

ghost use Rattle.log_rows.specs.Rows.{BothTell, OpenTell};

/// A transaction that a log leaves open has neither a Commit nor an Ended record in it, and each row that it has changed, whether the change
/// stands or was taken back, is one that a record of it changes.
pub fn open_trans_tell()
    ensures { OpenTell }
{}

/// Records that stand behind others change and close what the one part or the other does.
pub fn both_tell()
    ensures { BothTell }
{}
