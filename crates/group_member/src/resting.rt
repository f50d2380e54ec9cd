//! What a member doesn't do while its restart is in hand.

ghost use Rattle.std.specs.Prelude.{◌≡◌, ◌≤◌, true, false};
ghost use Rattle.member_trans.specs.Trans.{is_free};
ghost use Rattle.member_marks.specs.State.{slot_tran};
ghost use Rattle.group_member.specs.Resting.{NoneInSlots, changes_locks, claims_name, frees_claimed, purged_by, purged_in, touches_pages};

use facility::Command;
use lock_names::Name;
use member_intents::Intent;
use member_marks::{Marks, Owner, Stage};
use restart_marks::RestartSent;

/// Whether the intent takes a lock or gives one up, or frees a retained record.
pub fn changes_locks(intent: &Intent) -> bool
    ensures { result ≡ changes_locks intent.now }
{
    matches!(
        intent,
        Intent::Obtain { .. }
            | Intent::Grant { .. }
            | Intent::ReleaseLock { .. }
            | Intent::ReleasePage { .. }
            | Intent::Purge { .. }
            | Intent::End { .. }
    )
}

/// Whether the intent reads or writes a page in a frame, draws a number or writes a log record, or loses the cache. What a castout wants isn't meant:
/// a restart that waits for room in the cache may have it by a castout of its own member.
pub fn touches_pages(intent: &Intent) -> bool
    ensures { result ≡ touches_pages intent.now }
{
    matches!(
        intent,
        Intent::LoseCache
            | Intent::Read { .. }
            | Intent::ReadPage { .. }
            | Intent::Test { .. }
            | Intent::WritePage { .. }
            | Intent::Unregister { .. }
            | Intent::Change { .. }
            | Intent::Undo { .. }
            | Intent::Commit { .. }
            | Intent::Append
    )
}

// ---- transactions

fn is_free(marks: &Marks, slot: u8) -> bool
    ensures { result ≡ is_free (slot_tran marks.now slot).stage }
{
    matches!(marks.stage(&Owner::Slot(slot)), Stage::Free)
}

/// Whether a slot has a transaction.
pub fn has_tran(marks: &Marks) -> bool
    ensures some { result ≡ true → ¬ NoneInSlots marks.now }
    ensures none { result ≡ false → NoneInSlots marks.now }
{
    for before in 0..marks.agents() {
        if !is_free(marks, before + 1) {
            return true;
        }
    }
    false
}

// ---- retained records

fn purged_in(command: &Command) -> Option<Name>
    ensures { result ≡ purged_in command.now }
{
    match command {
        Command::Purge { name } => Some(*name),
        _ => None,
    }
}

fn purged_by(sent: &RestartSent) -> Option<Name>
    ensures { result ≡ purged_by sent.now }
{
    match sent {
        RestartSent::Command(command) => purged_in(command),
        _ => None,
    }
}

fn claims_name(marks: &Marks, name: Option<Name>) -> bool
    ensures { result ≡ claims_name marks.now name }
{
    match name {
        Some(name) => marks.is_claimed(&name),
        None => false,
    }
}

/// Whether the restart has freed a record whose name a rollback of the member claims.
pub fn frees_claimed(marks: &Marks, sent: &RestartSent) -> bool
    ensures { result ≡ frees_claimed marks.now sent.now }
{
    claims_name(marks, purged_by(sent))
}
