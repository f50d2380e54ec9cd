//! When a member may give a command. Each test takes the same time whatever the facility holds.
ghost use Rattle.std.specs.Prelude.{◌≡◌, ◌↔◌, ◌≤◌, ◌<◌, ◌+◌, ℕ, true, IsTrue, slice_index_or};
ghost use Rattle.std.specs.Option.{ForSome};
ghost use Rattle.ds_base.specs.Ids.{IsLrsn};
ghost use Rattle.cache_structure.specs.declared.face.DoneReply.TheVariants as done;
ghost use Rattle.cache_structure.specs.Replies.{done_reply};
ghost use Rattle.list_structure.specs.Bells.{CanRing};
ghost use Rattle.list_structure.specs.Waits.{wait_for};
ghost use Rattle.facility.specs.States.{held};
ghost use Rattle.facility.specs.Counting.{AreFrames};
ghost use Rattle.facility.specs.Commands.{CanExecute, CanGrant, CanWait, AsksSlot, IsSlot, IsFlag};

use crate::{Command, Facility, Indexes};
use cache_structure::CacheFace;
use ds_base::{LRSN_END, MemberId, PageId, TranId};
use list_structure::{Asker, Wait};
use lock_names::Name;

/// The last slot of a member's queries.
const LAST_SLOT: u8 = 16;

/// The last flag of a phase.
const LAST_FLAG: u8 = 64;

/// How many frames a draw may name.
const MOST_FRAMES: u8 = 3;

impl<C: CacheFace> Facility<C> {
    /// Whether the member may give the command now.
    pub fn can_execute(&self, member: MemberId, command: &Command) -> bool
        ensures exact { IsTrue result ↔ CanExecute (held C.directory self.now) member command.now }
        ensures slot { result ≡ true → AsksSlot command.now }
    {
        match command {
            Command::Obtain { name, .. } => self.can_record(member, name),
            Command::Grant { slot, name, .. } => self.can_grant(member, *slot, name),
            Command::Release { .. } => self.lists.can_ring(),
            Command::Purge { .. } => self.lists.can_ring(),
            Command::RetainedAt { .. } => true,
            Command::Read { index, .. } => self.is_frame(*index),
            Command::Write { index, .. } => self.is_frame(*index),
            Command::Unregister { index } => self.is_frame(*index),
            Command::Test { index } => self.is_frame(*index),
            Command::CastoutRead { .. } => true,
            Command::CastoutDone { page } => self.can_end_castout(member, *page),
            Command::NextChanged { .. } => true,
            Command::Lose => true,
            Command::Rebuilt => self.lists.can_ring(),
            Command::Ask { slot, .. } => is_slot(*slot),
            Command::Take { after } => is_slot_of(*after),
            Command::Answer { asker, .. } => is_slot(asker.slot),
            Command::Answers { slot } => is_slot(*slot),
            Command::Wait { tran, holder, flag } => self.can_wait(*tran, *holder, *flag),
            Command::Unwait { .. } => true,
            Command::Waits => true,
            Command::End { .. } => self.lists.can_ring(),
            Command::Raise { flag } => self.can_raise(*flag),
            Command::Flag { flag } => is_flag(*flag),
            Command::SetStatus { .. } => self.lists.can_ring(),
            Command::Status { .. } => true,
            Command::Claim => true,
            Command::Unclaim => self.lists.can_ring(),
            Command::PhaseDone => self.lists.can_ring(),
            Command::Draw { indexes } => self.are_frames(indexes),
            Command::DrawUndo { indexes } => self.can_draw_undo(indexes),
        }
    }

    // Whether the entry's version may rise, and a record of the name has room.
    fn can_record(&self, member: MemberId, name: &Name) -> bool
        ensures { IsTrue result ↔ CanGrant self.now.locks member name.now }
    {
        self.locks.can_grant(member, name)
    }

    #[tactic(auto, using(crate::proofs::Decided::both))]
    fn can_grant(&self, member: MemberId, slot: u8, name: &Name) -> bool
        ensures { IsTrue result ↔ (IsSlot slot × CanGrant self.now.locks member name.now) }
    {
        is_slot(slot) && self.can_record(member, name)
    }

    fn is_frame(&self, index: u16) -> bool
        ensures { IsTrue result ↔ (index < (C.directory self.now.cache).frames) }
    {
        index < self.cache.frames()
    }

    // Whether the bells may ring, or the castout isn't the member's to end.
    fn can_end_castout(&self, member: MemberId, id: PageId) -> bool
        ensures { IsTrue result ↔ (done_reply (C.directory self.now.cache) member id ≡ done.Done → CanRing self.now.lists.bells) }
    {
        self.lists.can_ring() || !self.ends_castout(member, id)
    }

    fn ends_castout(&self, member: MemberId, id: PageId) -> bool
        ensures { IsTrue result ↔ (done_reply (C.directory self.now.cache) member id ≡ done.Done) }
    {
        if self.cache.is_lost() {
            return false;
        }
        match self.cache.castout_holder(id) {
            Some(by) => by == member,
            None => false,
        }
    }

    fn can_wait(&self, tran: TranId, holder: TranId, flag: u8) -> bool
        ensures { IsTrue result ↔ CanWait self.now.lists (wait_for tran holder flag) }
    {
        let wait = Wait {
            waiter: tran,
            holder,
            flag,
        };
        self.lists.can_wait(&wait)
    }

    #[tactic(auto, using(crate::proofs::Decided::both))]
    fn can_raise(&self, flag: u8) -> bool
        ensures { IsTrue result ↔ (IsFlag flag × CanRing self.now.lists.bells) }
    {
        is_flag(flag) && self.lists.can_ring()
    }

    // Whether there are at most three indexes, each of one of the member's frames.
    fn are_frames(&self, indexes: &Indexes) -> bool
        ensures { IsTrue result ↔ AreFrames (C.directory self.now.cache) indexes.now }
    {
        indexes.count <= MOST_FRAMES
            && self.is_frame_at(indexes, 0)
            && self.is_frame_at(indexes, 1)
            && self.is_frame_at(indexes, 2)
    }

    // Whether the index at this place is one of a frame, if it is one of those that count.
    fn is_frame_at(&self, indexes: &Indexes, place: u8) -> bool
        requires { place < 3 }
        ensures { IsTrue result ↔ (place < indexes.now.count → slice_index_or indexes.now.at place 0 < (C.directory self.now.cache).frames) }
    {
        place >= indexes.count || self.is_frame(indexes.at[place as usize])
    }

    #[tactic(auto, using(crate::proofs::Decided::both))]
    fn can_draw_undo(&self, indexes: &Indexes) -> bool
        ensures { IsTrue result ↔ (AreFrames (C.directory self.now.cache) indexes.now × IsLrsn (self.now.counter + 1)) }
    {
        self.are_frames(indexes) && self.can_count()
    }

    // Whether there is a number after the counter.
    fn can_count(&self) -> bool
        ensures { IsTrue result ↔ IsLrsn (self.now.counter + 1) }
    {
        self.counter.number() + 1 < LRSN_END
    }
}

fn is_slot(slot: u8) -> bool
    ensures { IsTrue result ↔ IsSlot slot }
{
    slot <= LAST_SLOT
}

// Whether the asker's slot is one, if there is an asker.
fn is_slot_of(after: Option<Asker>) -> bool
    ensures { IsTrue result ↔ ForSome after (λ asker. IsSlot asker.slot) }
{
    match after {
        Some(asker) => is_slot(asker.slot),
        None => true,
    }
}

fn is_flag(flag: u8) -> bool
    ensures { IsTrue result ↔ IsFlag flag }
{
    1 <= flag && flag <= LAST_FLAG
}
