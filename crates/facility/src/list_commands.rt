//! The commands of the list structure.
ghost use Rattle.std.specs.Prelude.{◌≡◌, ◌≤◌, ℕ};
ghost use Rattle.std.specs.Option.{ForSome};
ghost use Rattle.list_structure.specs.Bells.{CanRing};
ghost use Rattle.list_structure.specs.Waits.{wait_for};
ghost use Rattle.facility.specs.States.{held};
ghost use Rattle.facility.specs.Commands.{CanWait, IsSlot, IsFlag};
ghost use Rattle.facility.specs.ListCommands.{AsksMember, TakesQuery, AnswersQuery, Waits, WaitsNoMore, EndsTran, RaisesFlag, ReadsFlag, SetsStatus, ReadsStatus, ClaimsRebuild, GivesUpRebuild, EndsPhase};

use crate::{Facility, Reply};
use cache_structure::CacheFace;
use ds_base::{MemberId, TranId};
use list_structure::{Asker, CellAnswer, ClaimReply, MemberStatus};
use lock_names::{Mode, Name};

impl<C: CacheFace> Facility<C> {
    /// Asks a member whether a lock is in the way of its own.
    pub(crate) fn ask(
        &mut self,
        member: MemberId,
        slot: u8,
        to: MemberId,
        name: &Name,
        mode: Mode,
    ) -> Reply
        requires { IsSlot slot }
        ensures { AsksMember (held C.directory self.old) member slot to name.now mode result (held C.directory self.new) }
    {
        self.lists.ask(member, slot, to, name, mode);
        Reply::Done
    }

    /// Takes the next query to this member, past that of an asker.
    pub(crate) fn take(&mut self, member: MemberId, after: Option<Asker>) -> Reply
        requires { ForSome after (λ asker. IsSlot asker.slot) }
        ensures { TakesQuery (held C.directory self.old) member after result (held C.directory self.new) }
    {
        match self.lists.take(member, after) {
            Some(query) => Reply::Query { query },
            None => Reply::Nothing,
        }
    }

    /// Answers a query by this event.
    pub(crate) fn answer(
        &mut self,
        member: MemberId,
        asker: Asker,
        name: &Name,
        mode: Mode,
        answer: CellAnswer,
        event: u64,
    ) -> Reply
        requires { IsSlot asker.slot }
        ensures { AnswersQuery (held C.directory self.old) member asker name.now mode answer event result (held C.directory self.new) }
    {
        let version = self.locks.version(name);
        if self
            .lists
            .answer(member, asker, name, mode, answer, version, event)
        {
            Reply::Done
        } else {
            Reply::Gone
        }
    }

    /// A transaction waits for another: for its lock, or for this flag where it isn't 0.
    pub(crate) fn wait(&mut self, tran: TranId, holder: TranId, flag: u8) -> Reply
        requires { CanWait self.old.lists (wait_for tran holder flag) }
        ensures { Waits (held C.directory self.old) tran holder flag result (held C.directory self.new) }
    {
        self.lists.wait(tran, holder, flag);
        Reply::Done
    }

    /// A transaction waits no more.
    pub(crate) fn unwait(&mut self, tran: TranId) -> Reply
        ensures { WaitsNoMore (held C.directory self.old) tran result (held C.directory self.new) }
    {
        self.lists.unwait(tran);
        Reply::Done
    }

    /// A transaction has ended.
    pub(crate) fn end(&mut self, tran: TranId) -> Reply
        requires { CanRing self.old.lists.bells }
        ensures { EndsTran (held C.directory self.old) tran result (held C.directory self.new) }
    {
        self.lists.end(tran);
        Reply::Done
    }

    /// Raises a flag.
    pub(crate) fn raise(&mut self, flag: u8) -> Reply
        requires flag { IsFlag flag }
        requires bells { CanRing self.old.lists.bells }
        ensures { RaisesFlag (held C.directory self.old) flag result (held C.directory self.new) }
    {
        self.lists.raise(flag);
        Reply::Done
    }

    /// Asks for a flag.
    pub(crate) fn flag(&mut self, flag: u8) -> Reply
        requires { IsFlag flag }
        ensures { ReadsFlag (held C.directory self.old) flag result (held C.directory self.new) }
    {
        if self.lists.flag(flag) {
            Reply::Raised
        } else {
            Reply::NotRaised
        }
    }

    pub(crate) fn set_status(&mut self, member: MemberId, status: MemberStatus) -> Reply
        requires { CanRing self.old.lists.bells }
        ensures { SetsStatus (held C.directory self.old) member status result (held C.directory self.new) }
    {
        self.lists.set_status(member, status);
        Reply::Done
    }

    pub(crate) fn status(&mut self, member: MemberId) -> Reply
        ensures { ReadsStatus (held C.directory self.old) member result (held C.directory self.new) }
    {
        let status = self.lists.status(member);
        Reply::Status { status }
    }

    /// Claims the rebuild of the cache.
    pub(crate) fn claim(&mut self, member: MemberId) -> Reply
        ensures { ClaimsRebuild (held C.directory self.old) member result (held C.directory self.new) }
    {
        let lost = self.cache.is_lost();
        match self.lists.claim(member, lost) {
            ClaimReply::NotLost => Reply::NotLost,
            ClaimReply::Taken { by } => Reply::ClaimTaken { by },
            ClaimReply::Claimed => Reply::Claimed,
        }
    }

    /// Gives up the rebuild of the cache.
    pub(crate) fn unclaim(&mut self, member: MemberId) -> Reply
        requires { CanRing self.old.lists.bells }
        ensures { GivesUpRebuild (held C.directory self.old) member result (held C.directory self.new) }
    {
        self.lists.unclaim(member);
        Reply::Done
    }

    /// The member is done with the phase.
    pub(crate) fn phase_done(&mut self, member: MemberId) -> Reply
        requires { CanRing self.old.lists.bells }
        ensures { EndsPhase (held C.directory self.old) member result (held C.directory self.new) }
    {
        self.lists.phase_done(member);
        Reply::Done
    }
}
