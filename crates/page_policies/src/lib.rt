//! What a policy does with the pages of its member: any local moves, which are no moves of the group's pages; and what the locks of
//! transactions, their refusals and their ends leave of them.
//!
//! The crate has definitions and proofs alone. Its functions do nothing: their contracts are the theorems.
#![tactic(auto)]

ghost use Rattle.page_policies.specs.Locals.{LocalGoes, LocalsLeaveLog, OwnClaimsStay, ReachesGoes, TransLeavePages};

use page_intents::{locals_stay, others_stay};
use page_protocol::coherent_pages;

/// Any local move, and all that a policy reaches by local moves, is no move of pages, and leaves the log buffer as it is.
pub fn policies_go()
    ensures local { LocalGoes }
    ensures reaches { ReachesGoes }
    ensures log { LocalsLeaveLog }
{
    others_stay();
    locals_stay();
    coherent_pages();
}

/// The locks of transactions, their ends and their refusals leave the frames, the log and the page claims of the member.
pub fn transactions_leave()
    ensures { TransLeavePages }
{}

/// They leave the claims of the member itself, and so do all local moves.
pub fn own_claims_stay()
    ensures { OwnClaimsStay }
{}
