//! What events mark over the lanes.

ghost use Rattle.std.specs.Prelude.{◌≡◌};
ghost use Rattle.run_picture.specs.Marking as spec;

use ds_model::EventLine;
use picture_text::Kind;

/// What an event marks.
#[derive(Clone, Copy, Debug, PartialEq, Eq)]
pub enum Mark {
    /// A phase begins.
    Phase,
    GroupFailure,
    /// The cache is lost.
    Loss,
    /// A member fails.
    Failure,
    DiskFailure,
    /// A member is up again.
    Up,
    /// The cache is rebuilt.
    Rebuilt,
    /// A member restarts.
    Restart,
}

impl Mark {
    pub fn is_phase(self) -> bool
        ensures { result ≡ spec.is_phase self }
    {
        matches!(self, Mark::Phase)
    }

    /// Whether it is one of those that are drawn together: of phases, or of all others.
    pub fn is_of(self, of_phases: bool) -> bool
        ensures { result ≡ spec.is_of of_phases self }
    {
        if of_phases {
            self.is_phase()
        } else {
            !self.is_phase()
        }
    }

    pub fn kind(self) -> Kind
        ensures { result ≡ spec.mark_kind self }
    {
        match self {
            Mark::Phase => Kind::Phase,
            Mark::GroupFailure | Mark::Loss | Mark::Failure | Mark::DiskFailure => Kind::Failure,
            Mark::Up | Mark::Rebuilt | Mark::Restart => Kind::Mended,
        }
    }

    /// Its label. Behind that of a phase stands a number.
    pub fn words(self) -> &'static [u8]
        ensures { result.now ≡ spec.mark_words self }
    {
        match self {
            Mark::Phase => b"phase ",
            Mark::GroupFailure => b"group fails",
            Mark::Loss => b"cache lost",
            Mark::Failure => b"fails",
            Mark::DiskFailure => b"disk fails",
            Mark::Up => b"is up",
            Mark::Rebuilt => b"cache rebuilt",
            Mark::Restart => b"restarts",
        }
    }
}

fn group_mark(choice: u64) -> Option<Mark>
    ensures { result ≡ spec.group_mark choice }
{
    match choice {
        0 => Some(Mark::Phase),
        1 => Some(Mark::GroupFailure),
        _ => None,
    }
}

// What an event marks that was done.
#[tactic(auto, unfolding(crate::specs::Marking::done_mark))]
fn done_mark(command: &[u8]) -> Option<Mark>
    ensures { result ≡ spec.done_mark command.now }
{
    if command == b"lose".as_slice() {
        Some(Mark::Loss)
    } else if command == b"set-status".as_slice() {
        Some(Mark::Up)
    } else if command == b"rebuilt".as_slice() {
        Some(Mark::Rebuilt)
    } else {
        None
    }
}

#[tactic(auto, unfolding(crate::specs::Marking::member_mark))]
fn member_mark(event: &EventLine) -> Option<Mark>
    ensures { result ≡ spec.member_mark event.now }
{
    let command = event.command.as_slice();
    let reply = event.reply.as_slice();
    if command == b"fail".as_slice() {
        Some(Mark::Failure)
    } else if command == b"log-length".as_slice() && event.choice == 0 {
        Some(Mark::Restart)
    } else if reply == b"done".as_slice() {
        done_mark(command)
    } else if reply == b"failed".as_slice() {
        Some(Mark::DiskFailure)
    } else {
        None
    }
}

/// What an event of the group or of a member marks.
pub fn mark_of(event: &EventLine) -> Option<Mark>
    ensures { result ≡ spec.mark_of event.now }
{
    if event.member == 0 {
        group_mark(event.choice)
    } else {
        member_mark(event)
    }
}
