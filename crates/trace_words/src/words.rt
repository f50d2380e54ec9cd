//! The words of commands and replies in a trace.

use facility::{Command, Reply};
use list_structure::MemberStatus;
use rebuild_resources::{Answered, Sent};

// The word of a command of the lock structure or the counter.
fn lock_word(command: &Command) -> Option<&'static [u8]> {
    match command {
        Command::Obtain { .. } => Some(b"obtain"),
        Command::Grant { .. } => Some(b"grant"),
        Command::Release { .. } => Some(b"release"),
        Command::Purge { .. } => Some(b"purge"),
        Command::RetainedAt { .. } => Some(b"retained-at"),
        Command::Draw { .. } => Some(b"draw"),
        Command::DrawUndo { .. } => Some(b"draw-undo"),
        _ => None,
    }
}

fn cache_word(command: &Command) -> Option<&'static [u8]> {
    match command {
        Command::Read { .. } => Some(b"read"),
        Command::Write { .. } => Some(b"write"),
        Command::Unregister { .. } => Some(b"unregister"),
        Command::Test { .. } => Some(b"test"),
        Command::CastoutRead { .. } => Some(b"castout-read"),
        Command::CastoutDone { .. } => Some(b"castout-done"),
        Command::NextChanged { .. } => Some(b"next-changed"),
        Command::Lose => Some(b"lose"),
        Command::Rebuilt => Some(b"rebuilt"),
        _ => None,
    }
}

fn list_word(command: &Command) -> &'static [u8] {
    match command {
        Command::Ask { .. } => b"ask",
        Command::Take { .. } => b"take",
        Command::Answer { .. } => b"answer",
        Command::Answers { .. } => b"answers",
        Command::Wait { .. } => b"wait",
        Command::Unwait { .. } => b"unwait",
        Command::Waits => b"waits",
        Command::End { .. } => b"end",
        Command::Raise { .. } => b"raise",
        Command::Flag { .. } => b"flag",
        Command::SetStatus { .. } => b"set-status",
        Command::Status { .. } => b"status",
        Command::Claim => b"claim",
        Command::Unclaim => b"unclaim",
        Command::PhaseDone => b"phase-done",
        _ => b"none",
    }
}

pub(crate) fn command_word(command: &Command) -> &'static [u8] {
    if let Some(word) = lock_word(command) {
        return word;
    }
    match cache_word(command) {
        Some(word) => word,
        None => list_word(command),
    }
}

/// The word of what was sent.
pub fn sent_word(sent: &Sent) -> &'static [u8] {
    match sent {
        Sent::None => b"none",
        Sent::Command(command) => command_word(command),
        Sent::AppendLog => b"log-append",
        Sent::ReadPage(_) => b"page-read",
        Sent::WritePage(_) => b"page-write",
    }
}

fn status_word(status: MemberStatus) -> &'static [u8] {
    match status {
        MemberStatus::Down => b"down",
        MemberStatus::Up => b"up",
        MemberStatus::Failed => b"failed",
        MemberStatus::Restarting => b"restarting",
    }
}

// The word of a reply of the lock structure or the counter.
fn lock_reply_word(reply: &Reply) -> Option<&'static [u8]> {
    match reply {
        Reply::Granted { .. } => Some(b"granted"),
        Reply::Retained { .. } => Some(b"retained"),
        Reply::RecordsFull { .. } => Some(b"records-full"),
        Reply::Contention { .. } => Some(b"contention"),
        Reply::Moved { .. } => Some(b"moved"),
        Reply::RetainedLock { .. } => Some(b"record"),
        Reply::Drawn { .. } => Some(b"drawn"),
        Reply::Stale { .. } => Some(b"stale"),
        Reply::LrsnEnd { .. } => Some(b"lrsn-end"),
        _ => None,
    }
}

fn cache_reply_word(reply: &Reply) -> Option<&'static [u8]> {
    match reply {
        Reply::Found => Some(b"found"),
        Reply::NoData => Some(b"no-data"),
        Reply::CacheFull => Some(b"cache-full"),
        Reply::Lost => Some(b"lost"),
        Reply::Written => Some(b"written"),
        Reply::Valid => Some(b"valid"),
        Reply::Invalid => Some(b"invalid"),
        Reply::Taken => Some(b"taken"),
        Reply::NotChanged => Some(b"not-changed"),
        Reply::Locked { .. } => Some(b"locked"),
        Reply::NotHeld => Some(b"not-held"),
        Reply::ChangedPage { .. } => Some(b"page"),
        _ => None,
    }
}

fn list_reply_word(reply: &Reply) -> &'static [u8] {
    match reply {
        Reply::Done => b"done",
        Reply::Query { .. } => b"query",
        Reply::Gone => b"gone",
        Reply::Cells => b"cells",
        Reply::Waits => b"pairs",
        Reply::Raised => b"raised",
        Reply::NotRaised => b"not-raised",
        Reply::Status { status } => status_word(*status),
        Reply::NotLost => b"not-lost",
        Reply::ClaimTaken { .. } => b"taken",
        Reply::Claimed => b"claimed",
        _ => b"none",
    }
}

fn reply_word(reply: &Reply) -> &'static [u8] {
    if let Some(word) = lock_reply_word(reply) {
        return word;
    }
    match cache_reply_word(reply) {
        Some(word) => word,
        None => list_reply_word(reply),
    }
}

/// The word of what was answered.
pub fn answered_word(answered: &Answered) -> &'static [u8] {
    match answered {
        Answered::None => b"none",
        Answered::Reply(reply) => reply_word(reply),
        Answered::Done => b"done",
        Answered::Failed => b"failed",
    }
}
