//! Which records a log has behind an append that was done, or that has stopped inside, as a failure stops it: those that it had, and of those
//! that were appended the ones that are whole.
//!
//! The crate has definitions and proofs alone. Its functions do nothing: their contracts are the theorems.
#![tactic(auto)]

ghost use Rattle.log_appends.specs.Appends.{AllAreLast, AppendsAreWhole, LastAreBehind, LastSpell};
ghost use Rattle.log_appends.specs.Rests.{AppendsLeave, LastAreAllowed, LastWithRest, LastWithoutRest, NothingIsRest, RestIsTold};

use log_head::whole_laws;
use log_record::{log_laws, reading_laws};

/// A log of whole records that are allowed is one again behind such records that are appended. All its records are last ones; and with the
/// spelling of last ones it ends. Where no Checkpoint is among those that are appended, its last records, behind an append of which any front is
/// on disk, are last ones that it had before, and then a front of those that were appended: all of them where all of their bytes are.
pub fn appends_tell()
    ensures whole { AppendsAreWhole }
    ensures all { AllAreLast }
    ensures spell { LastSpell }
    ensures last { LastAreBehind }
{
    reading_laws();
    log_laws();
    whole_laws();
}

/// What an append leaves that has stopped inside are records that were to be appended, and then a rest, which is none. Behind a log of whole
/// records a rest changes nothing of its last records, which are allowed.
pub fn rests_tell()
    ensures none { NothingIsRest }
    ensures without { LastWithoutRest }
    ensures with_rest { LastWithRest }
    ensures told { RestIsTold }
    ensures allowed { LastAreAllowed }
    ensures leave { AppendsLeave }
{
    reading_laws();
    log_laws();
    whole_laws();
}
