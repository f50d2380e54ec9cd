//! The locks of a group as a pure machine: the lock table with its versions, the records, the claims of all
//! owners, and the queries between members. What is proved of it holds for every list of moves, and so for
//! every schedule of members that make no other moves.
//!
//! The crate has definitions and proofs alone. Its functions do nothing: their contracts are the theorems.
#![tactic(auto)]

ghost use Rattle.lock_protocol.specs.Own.{BothAreOf, OthersKeep};
ghost use Rattle.lock_protocol.specs.Sound.{AlwaysSound, KeepsSound, RunKeepsSound, StartsSound};
ghost use Rattle.lock_protocol.specs.Words.{JoinIsOne, SoundGives};
ghost use Rattle.lock_protocol.specs.Example.{RecordStands};
ghost use Rattle.lock_protocol.specs.Needed.{StampIsNeeded, RetainedIsNeeded, KeptInterestIsNeeded, NoClaimIsNeeded};

/// In every state that moves lead to from the start no two claims conflict, each claim is covered by the interest of
/// its live member or by a retained record, and each recorded claim by a record.
pub fn sound_claims()
    ensures { AlwaysSound }
{}

/// The start is sound, each move keeps what is, and so does every list of moves.
pub fn keeps_sound()
    ensures start { StartsSound }
    ensures step { KeepsSound }
    ensures run { RunKeepsSound }
{}

/// What soundness gives: no two claims conflict; who has a name in X, as a page's owner has the page, has it alone; each
/// claim has interest or a retained record behind it; each claim of a failed member is retained, and each recorded one
/// outlives a failure. And of claims that don't conflict the join is one of them, so that a claim covered by all of a
/// member's claims is covered by one.
pub fn claims_give()
    ensures gives { SoundGives }
    ensures join { JoinIsOne }
{}

/// A restarting member may answer a query as clean, and keep no interest, for names that its open transactions have
/// locked: their retained records keep others away.
pub fn records_stand()
    ensures { RecordStands }
{}

/// Four guards of the moves without which claims come to conflict: a stale clean answer is refused, a failure
/// retains the recorded claims, a release keeps the interest that other claims need, and a record is purged only when
/// no claim on its name is left.
pub fn guards_are_needed()
    ensures stamp { StampIsNeeded }
    ensures retained { RetainedIsNeeded }
    ensures kept_interest { KeptInterestIsNeeded }
    ensures no_claim { NoClaimIsNeeded }
{}

/// The moves of one member leave the claims of all others.
pub fn moves_leave_others()
    ensures others { OthersKeep }
    ensures both { BothAreOf }
{}
