//! The counter that numbers the log records of all members.
ghost use Rattle.std.specs.Prelude.{◌≡◌, ◌+◌, ◌≤◌, ℕ, find, take, not, None};
ghost use Rattle.facility.specs.declared.command.Reply.TheVariants.{Drawn};
ghost use Rattle.ds_base.specs.Ids.{IsLrsn};
ghost use Rattle.cache_structure.specs.Directory.{bit};
ghost use Rattle.facility.specs.States.{held};
ghost use Rattle.facility.specs.Counting.{AreFrames, DrawsNumber, DrawsUndo, first_stale, given};

use crate::{Facility, Indexes, Reply};
use cache_structure::CacheFace;
use ds_base::{LRSN_LIMIT, Lrsn, MemberId};

impl<C: CacheFace> Facility<C> {
    /// Draws a number for a log record, if the member's copies in these frames are valid.
    pub(crate) fn draw(&mut self, member: MemberId, indexes: &Indexes) -> Reply
        requires { AreFrames (C.directory self.old.cache) indexes.now }
        ensures { DrawsNumber (held C.directory self.old) member indexes.now result (held C.directory self.new) }
    {
        if let Some(index) = self.first_stale(member, indexes) {
            return Reply::Stale { index };
        }
        if self.counter.number() >= LRSN_LIMIT {
            return Reply::LrsnEnd { at: self.counter };
        }
        self.count()
    }

    /// The same for a compensation, also past the limit.
    pub(crate) fn draw_undo(&mut self, member: MemberId, indexes: &Indexes) -> Reply
        requires frames { AreFrames (C.directory self.old.cache) indexes.now }
        requires counter { IsLrsn (self.old.counter + 1) }
        ensures { DrawsUndo (held C.directory self.old) member indexes.now result (held C.directory self.new) }
    {
        if let Some(index) = self.first_stale(member, indexes) {
            return Reply::Stale { index };
        }
        self.count()
    }

    // The first of the frames whose copy isn't valid.
    #[tactic(auto, using(crate::proofs::Frames::find_step))]
    fn first_stale(&self, member: MemberId, indexes: &Indexes) -> Option<u16>
        requires { AreFrames (C.directory self.now.cache) indexes.now }
        ensures { result ≡ first_stale (C.directory self.now.cache) member (given indexes.now) }
    {
        let frames = &indexes.at[..indexes.count as usize];
        for index in frames {
            if !self.cache.test(member, *index) {
                return Some(*index);
            }
        }
        None
    }

    // Raises the counter.
    fn count(&mut self) -> Reply
        requires { IsLrsn (self.old.counter + 1) }
        ensures reply { result ≡ Drawn (self.old.counter + 1) }
        ensures others { held C.directory self.new ≡ record (held C.directory self.old) { counter = self.old.counter + 1 } }
    {
        let lrsn = Lrsn::new(self.counter.number() + 1).unwrap();
        self.counter = lrsn;
        Reply::Drawn { lrsn }
    }
}
