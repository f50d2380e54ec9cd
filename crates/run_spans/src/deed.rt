//! What an event was, as far as it matters for a picture.

ghost use Rattle.std.specs.Prelude.{◌≡◌};
ghost use Rattle.run_spans.specs.Deeds as spec;

use ds_model::EventLine;

/// What was done in an event.
#[derive(Clone, Copy, Debug, PartialEq, Eq)]
pub enum Deed {
    /// No command: a transaction begins, or a wait has ended.
    Nothing,
    /// A log record got its number.
    Draw,
    /// Log records became stable.
    Append,
    /// A transaction waits for another one, or for a flag.
    Wait,
    /// Its wait is over.
    Unwait,
    /// A lock was given up.
    Release,
    /// A flag was raised.
    Raise,
    /// A transaction is over.
    End,
    /// A member failed.
    Fail,
    /// A page was written to the cache.
    Write,
    /// A page was found in the cache.
    Read,
    Other,
}

impl Deed {
    pub fn is_nothing(self) -> bool
        ensures { result ≡ spec.is_nothing self }
    {
        matches!(self, Deed::Nothing)
    }

    pub fn is_draw(self) -> bool
        ensures { result ≡ spec.is_draw self }
    {
        matches!(self, Deed::Draw)
    }

    pub fn is_append(self) -> bool
        ensures { result ≡ spec.is_append self }
    {
        matches!(self, Deed::Append)
    }

    pub fn is_wait(self) -> bool
        ensures { result ≡ spec.is_wait self }
    {
        matches!(self, Deed::Wait)
    }

    pub fn is_unwait(self) -> bool
        ensures { result ≡ spec.is_unwait self }
    {
        matches!(self, Deed::Unwait)
    }

    pub fn is_end(self) -> bool
        ensures { result ≡ spec.is_end self }
    {
        matches!(self, Deed::End)
    }

    pub fn is_fail(self) -> bool
        ensures { result ≡ spec.is_fail self }
    {
        matches!(self, Deed::Fail)
    }

    pub fn is_write(self) -> bool
        ensures { result ≡ spec.is_write self }
    {
        matches!(self, Deed::Write)
    }

    pub fn is_read(self) -> bool
        ensures { result ≡ spec.is_read self }
    {
        matches!(self, Deed::Read)
    }

    pub fn is_release(self) -> bool
        ensures { result ≡ spec.is_release self }
    {
        matches!(self, Deed::Release)
    }

    pub fn is_raise(self) -> bool
        ensures { result ≡ spec.is_raise self }
    {
        matches!(self, Deed::Raise)
    }

    /// Whether it ends a wait, as a member's failure does too.
    pub fn ends_wait(self) -> bool
        ensures { result ≡ spec.ends_wait self }
    {
        self.is_unwait() || self.is_end()
    }

    /// Whether it lets others go on, as an event with this choice: an end, a raised flag, a failure, or the release of a lock, but not
    /// of a page's, which holds up no transaction.
    #[tactic(auto, unfolding(crate::specs::Deeds::rings))]
    pub fn rings(self, choice: u64) -> bool
        ensures { result ≡ spec.rings self choice }
    {
        self.is_end() || self.is_raise() || self.is_fail() || self.is_release() && choice != 18
    }
}

// What was done for a lock, a log or a flag.
#[tactic(auto, unfolding(crate::specs::Deeds::work_by))]
fn work_by(command: &[u8]) -> Deed
    ensures { result ≡ spec.work_by command.now }
{
    if command == b"log-append".as_slice() {
        Deed::Append
    } else if command == b"release".as_slice() || command == b"purge".as_slice() {
        Deed::Release
    } else if command == b"raise".as_slice() {
        Deed::Raise
    } else {
        Deed::Other
    }
}

// By the command alone.
#[tactic(auto, unfolding(crate::specs::Deeds::deed_by))]
fn deed_by(command: &[u8]) -> Deed
    ensures { result ≡ spec.deed_by command.now }
{
    if command == b"none".as_slice() {
        Deed::Nothing
    } else if command == b"wait".as_slice() {
        Deed::Wait
    } else if command == b"unwait".as_slice() {
        Deed::Unwait
    } else if command == b"end".as_slice() {
        Deed::End
    } else if command == b"fail".as_slice() {
        Deed::Fail
    } else {
        work_by(command)
    }
}

/// What was done in an event, by its words.
#[tactic(auto, unfolding(crate::specs::Deeds::deed_of))]
pub fn deed_of(event: &EventLine) -> Deed
    ensures { result ≡ spec.deed_of event.now }
{
    let command = event.command.as_slice();
    let reply = event.reply.as_slice();
    if command == b"draw".as_slice() && reply == b"drawn".as_slice() {
        Deed::Draw
    } else if command == b"write".as_slice() && reply == b"written".as_slice() {
        Deed::Write
    } else if command == b"read".as_slice() && reply == b"found".as_slice() {
        Deed::Read
    } else {
        deed_by(command)
    }
}
