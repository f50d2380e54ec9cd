//! That what the restart of a member leaves open keeps its claims: on each row that the transaction has changed, and on its table space, until
//! the restart hands it over or is over; also where the restart stops, and has changed the log.
//!
//! The crate has definitions and proofs alone. Its functions do nothing: their contracts are the theorems.
#![tactic(auto)]

ghost use Rattle.restart_claims.specs.Claims.{ClaimsBegin, ClaimsHand, ClaimsLeft, ClaimsStay, ClaimsTell, SpotsClaimed};
ghost use Rattle.restart_claims.specs.Stops.{RestsClaimed, StopsClaimed};
ghost use Rattle.restart_claims.specs.Whole.{ClosesTruly};

use lock_restarts::{local_moves_stay, restarts_follow, sends_lawfully};
use lock_world::names_have_numbers;
use log_appends::rests_tell;
use restart_closing::{closings_tell, restarts_close};
use restart_law::{lists_go, opens_tell, whole_is_read};

/// Behind each event of the restart, and behind whatever leaves the member's claims as they are.
pub fn claims_stay()
    ensures event { ClaimsStay }
    ensures other { ClaimsLeft }
{
    names_have_numbers();
    sends_lawfully();
    local_moves_stay();
    restarts_follow();
    opens_tell();
    lists_go();
}

/// So it is of a restart that begins where all have their claims that the log leaves open, and of one that has handed over; and what it hands
/// over has its claims.
pub fn claims_tell()
    ensures begin { ClaimsBegin }
    ensures handed { ClaimsHand }
    ensures tell { ClaimsTell }
    ensures spots { SpotsClaimed }
{
    opens_tell();
}

/// Where a restart stops that has read its log and isn't over, whatever of its log buffer is on disk, and whether it has cut off what follows
/// the whole records: the rollback of each transaction that the last records of the log leave open claims the rows that the transaction has
/// changed, as it did while the restart went on.
pub fn stops_are_claimed()
    ensures stops { StopsClaimed }
    ensures rests { RestsClaimed }
{
    closings_tell();
}

/// Where the log is read truthfully, what the restart has taken back stays closed behind each event of it whose call of the disk doesn't fail.
pub fn restarts_close_truly()
    ensures { ClosesTruly }
{
    rests_tell();
    whole_is_read();
    restarts_close();
}
