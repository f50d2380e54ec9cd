//! That a log leaves open each transaction that it doesn't close, with all rows that its records have changed for it; that records behind it
//! which change no row leave no more open; and that the changes which it leaves are those of its records.
//!
//! The crate has definitions and proofs alone. Its functions do nothing: their contracts are the theorems.
#![tactic(auto)]

ghost use Rattle.log_opens.specs.Opens.{OpensAreAll};
ghost use Rattle.log_opens.specs.Puts.{OpensAreAllowed, OpensStayFew};

use log_rows::{both_tell, open_trans_tell};

/// Where records have changed a row for a transaction, and none of them closes it, it is one of those that they leave open, and has changed
/// the row.
pub fn opens_are_all()
    ensures { OpensAreAll }
{
    both_tell();
}

/// Behind records that change no row, as what takes changes back and what ends a transaction, only such transactions are left open as were so
/// before, with no rows but those that they had changed.
pub fn opens_stay_few()
    ensures { OpensStayFew }
{
    both_tell();
    open_trans_tell();
    opens_are_all();
}

/// Of allowed records each transaction that they leave open has the number of a record, and the records of its changes that stand are allowed.
pub fn opens_are_allowed()
    ensures { OpensAreAllowed }
{}
