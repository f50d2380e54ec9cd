//! The commands of the cache structure.
ghost use Rattle.std.specs.Prelude.{◌≡◌, ◌<◌, ℕ};
ghost use Rattle.cache_structure.specs.declared.face.DoneReply.TheVariants as done;
ghost use Rattle.cache_structure.specs.Replies.{done_reply};
ghost use Rattle.list_structure.specs.Bells.{CanRing};
ghost use Rattle.facility.specs.States.{held};
ghost use Rattle.facility.specs.CacheCommands.{ReadsPage, WritesPage, UnregistersFrame, TestsFrame, BeginsCastout, EndsCastout, FindsChanged, LosesCache, HasRebuilt};

use crate::{Facility, Reply};
use cache_structure::{CacheFace, CastReply, DoneReply, ReadReply, WriteReply};
use ds_base::{MemberId, PageId};
use page_format::Page;

impl<C: CacheFace> Facility<C> {
    /// Registers a page with a frame, and reads it if it is there.
    pub(crate) fn read(
        &mut self,
        member: MemberId,
        id: PageId,
        index: u16,
        page: &mut Page,
    ) -> Reply
        requires { index < (C.directory self.old.cache).frames }
        ensures { ReadsPage (held C.directory self.old) member id index page.old result (held C.directory self.new) page.new }
    {
        match self.cache.read_register(member, id, index, page) {
            ReadReply::Found => Reply::Found,
            ReadReply::NoData => Reply::NoData,
            ReadReply::CacheFull => Reply::CacheFull,
            ReadReply::Lost => Reply::Lost,
        }
    }

    /// Writes a changed page, and invalidates all other copies of it.
    pub(crate) fn write(&mut self, member: MemberId, id: PageId, index: u16, page: &Page) -> Reply
        requires { index < (C.directory self.old.cache).frames }
        ensures { WritesPage (held C.directory self.old) member id index page.now result (held C.directory self.new) }
    {
        match self.cache.write_register(member, id, index, page) {
            WriteReply::Written => Reply::Written,
            WriteReply::CacheFull => Reply::CacheFull,
            WriteReply::Lost => Reply::Lost,
        }
    }

    /// Drops the registration of a frame.
    pub(crate) fn unregister(&mut self, member: MemberId, index: u16) -> Reply
        requires { index < (C.directory self.old.cache).frames }
        ensures { UnregistersFrame (held C.directory self.old) member index result (held C.directory self.new) }
    {
        self.cache.unregister(member, index);
        Reply::Done
    }

    /// Whether the copy in a frame is still valid.
    pub(crate) fn test_frame(&mut self, member: MemberId, index: u16) -> Reply
        requires { index < (C.directory self.old.cache).frames }
        ensures { TestsFrame (held C.directory self.old) member index result (held C.directory self.new) }
    {
        if self.cache.test(member, index) {
            Reply::Valid
        } else {
            Reply::Invalid
        }
    }

    /// Takes the castout lock of a changed page, and reads it.
    pub(crate) fn castout_read(&mut self, member: MemberId, id: PageId, page: &mut Page) -> Reply
        ensures { BeginsCastout (held C.directory self.old) member id page.old result (held C.directory self.new) page.new }
    {
        match self.cache.castout_read(member, id, page) {
            CastReply::Taken => Reply::Taken,
            CastReply::NotChanged => Reply::NotChanged,
            CastReply::Locked { by } => Reply::Locked { by },
            CastReply::Lost => Reply::Lost,
        }
    }

    /// Frees the castout lock of a page that was written to disk.
    pub(crate) fn castout_done(&mut self, member: MemberId, id: PageId) -> Reply
        requires { done_reply (C.directory self.old.cache) member id ≡ done.Done → CanRing self.old.lists.bells }
        ensures { EndsCastout (held C.directory self.old) member id result (held C.directory self.new) }
    {
        match self.cache.castout_done(member, id) {
            DoneReply::Done => {
                self.lists.ring();
                Reply::Done
            }
            DoneReply::NotHeld => Reply::NotHeld,
            DoneReply::Lost => Reply::Lost,
        }
    }

    /// The next changed page, by page set and number.
    pub(crate) fn next_changed(&mut self, after: Option<PageId>) -> Reply
        ensures { FindsChanged (held C.directory self.old) after result (held C.directory self.new) }
    {
        match self.cache.next_changed(after) {
            Some(page) => Reply::ChangedPage { page },
            None => Reply::Nothing,
        }
    }

    /// The cache is lost with all that it holds.
    pub(crate) fn lose(&mut self) -> Reply
        ensures { LosesCache (held C.directory self.old) result (held C.directory self.new) }
    {
        self.cache.lose();
        Reply::Done
    }

    /// What was lost is brought back.
    pub(crate) fn rebuilt(&mut self) -> Reply
        requires { CanRing self.old.lists.bells }
        ensures { HasRebuilt (held C.directory self.old) result (held C.directory self.new) }
    {
        self.cache.rebuilt();
        self.lists.ring();
        Reply::Done
    }
}
