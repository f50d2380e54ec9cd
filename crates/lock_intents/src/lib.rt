//! The lock intents of a member that is up, as moves in the world of locks: an intent that is lawful, whose command the facility has
//! executed and whose reply is settled, leads to a world that stands beside what is left.
//!
//! The crate has definitions and proofs alone. Its functions do nothing: their contracts are the theorems.
#![tactic(auto)]

ghost use Rattle.lock_intents.specs.Intents.{AnswerGoes, AskGoes, EndGoes, GrantGoes, ObtainGoes, PageGoes, PurgeGoes, ReleaseGoes};
ghost use Rattle.lock_intents.specs.Homes.{ClaimGoes, LocalGoes, ReachesGoes};

use lock_protocol::keeps_sound;
use lock_world::{
    books_change, books_tell, claims_are_moves, grants_are_moves, groups_begin, names_have_numbers,
    queries_are_moves, releases_are_moves, rollbacks_are_moves, rollbacks_change,
};

/// A lock that is asked for, whatever the reply: an obtain, and a grant behind the answers of the others.
pub fn claims_go()
    ensures obtain { ObtainGoes }
    ensures grant { GrantGoes }
{
    grants_are_moves();
    queries_are_moves();
    groups_begin();
    books_tell();
    books_change();
}

/// A query to another member, and the answer that the lock manager gives to one.
pub fn queries_go()
    ensures ask { AskGoes }
    ensures answer { AnswerGoes }
{
    queries_are_moves();
    groups_begin();
    books_tell();
}

/// A lock that is given up, by a transaction, by a rollback or of a page; a record that is freed; and the end of a transaction.
pub fn closings_go()
    ensures release { ReleaseGoes }
    ensures page { PageGoes }
    ensures purge { PurgeGoes }
    ensures end { EndGoes }
{
    names_have_numbers();
    groups_begin();
    claims_are_moves();
    releases_are_moves();
    books_tell();
    books_change();
    rollbacks_change();
}

/// What asks nothing of the facility, in a sound world: a lock that is tried at home, any other local move, and all that a policy reaches
/// by some of them.
pub fn homes_go()
    ensures claim { ClaimGoes }
    ensures local { LocalGoes }
    ensures reaches { ReachesGoes }
{
    claims_are_moves();
    rollbacks_are_moves();
    groups_begin();
    books_tell();
    books_change();
    rollbacks_change();
    keeps_sound();
}
