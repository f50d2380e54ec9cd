ghost use Rattle.std.specs.Prelude.{◌≡◌, ℕ, ◌<◌, List, map, filter, count_by};
ghost use Rattle.cache_structure.specs.Directory.{
  Directory,
  IsNextChanged,
  bit,
  castout_of,
  after_read,
  after_write,
  after_unregister,
  after_castout_read,
  after_castout_done,
  after_fail,
  after_lose,
  after_rebuilt,
};
ghost use Rattle.cache_structure.specs.Replies.{
  read_reply,
  read_into,
  write_reply,
  cast_reply,
  cast_into,
  done_reply,
};

use ds_base::{MemberId, PageId};
use page_format::Page;

/// The answer of a read.
#[derive(Clone, Copy, Debug, PartialEq, Eq)]
pub enum ReadReply {
    /// The page's bytes were copied.
    Found,
    /// The page is registered and has no bytes here.
    NoData,
    /// The page has no entry, and every entry is changed or under castout.
    CacheFull,
    /// The structure was lost and is not rebuilt.
    Lost,
}

/// The answer of a write.
#[derive(Clone, Copy, Debug, PartialEq, Eq)]
pub enum WriteReply {
    /// The page has the new bytes, and the other members' copies of it are invalid.
    Written,
    /// The page has no entry, and every entry is changed or under castout.
    CacheFull,
    /// The structure was lost and is not rebuilt.
    Lost,
}

/// The answer of the read that begins a castout.
#[derive(Clone, Copy, Debug, PartialEq, Eq)]
pub enum CastReply {
    /// The bytes were copied, and the castout lock is the member's.
    Taken,
    /// The page has no changed entry.
    NotChanged,
    /// Another member holds the castout lock.
    Locked { by: MemberId },
    /// The structure was lost and is not rebuilt.
    Lost,
}

/// The answer at the end of a castout.
#[derive(Clone, Copy, Debug, PartialEq, Eq)]
pub enum DoneReply {
    /// The castout lock is free again.
    Done,
    /// The member does not hold the castout lock.
    NotHeld,
    /// The structure was lost and is not rebuilt.
    Lost,
}

/// The commands of a cache structure, as a coupling facility executes them.
///
/// The structure is a store-in cache: it has the newest bytes of each changed page until they are cast out to
/// disk. A member registers its interest in a page with one of its frames, and the frame's bit stays set while
/// its copy of the page is valid.
///
/// No command takes memory. The source is Josten, Mohan, Narang and Teng, "DB2's use of the coupling facility
/// for data sharing", IBM Systems Journal 36(2), 1997.
pub trait CacheFace {
    /// What the structure holds.
    ghost directory: { Self → Directory };

    /// Registers a page with a frame, and copies its bytes if there are any.
    fn read_register(
        &mut self,
        member: MemberId,
        id: PageId,
        index: u16,
        into: &mut Page,
    ) -> ReadReply
        requires { index < (directory self.old).frames }
        ensures reply { result ≡ read_reply (directory self.old) id }
        ensures after { directory self.new ≡ after_read (directory self.old) member id index }
        ensures bytes { into.new ≡ read_into (directory self.old) id into.old };

    /// Replaces the bytes of a page, and invalidates every other member's copy of it.
    fn write_register(
        &mut self,
        member: MemberId,
        id: PageId,
        index: u16,
        from: &Page,
    ) -> WriteReply
        requires { index < (directory self.old).frames }
        ensures reply { result ≡ write_reply (directory self.old) id }
        ensures after { directory self.new ≡ after_write (directory self.old) member id index from.now };

    /// Drops the registration of a frame.
    fn unregister(&mut self, member: MemberId, index: u16)
        requires { index < (directory self.old).frames }
        ensures { directory self.new ≡ after_unregister (directory self.old) member index };

    /// Whether the copy in a frame is still valid.
    fn test(&self, member: MemberId, index: u16) -> bool
        requires { index < (directory self.now).frames }
        ensures { result ≡ bit (directory self.now) member index };

    /// Takes the castout lock of a changed page, and copies its bytes.
    fn castout_read(&mut self, member: MemberId, id: PageId, into: &mut Page) -> CastReply
        ensures reply { result ≡ cast_reply (directory self.old) member id }
        ensures after { directory self.new ≡ after_castout_read (directory self.old) member id }
        ensures bytes { into.new ≡ cast_into (directory self.old) member id into.old };

    /// Frees the castout lock. The page is then unchanged, unless it was written since the lock was taken.
    fn castout_done(&mut self, member: MemberId, id: PageId) -> DoneReply
        ensures reply { result ≡ done_reply (directory self.old) member id }
        ensures after { directory self.new ≡ after_castout_done (directory self.old) member id };

    /// The first changed page past `after`, in the order of page set and number.
    fn next_changed(&self, after: Option<PageId>) -> Option<PageId>
        ensures { IsNextChanged (directory self.now) after result };

    /// The member that holds the castout lock of a page.
    fn castout_holder(&self, id: PageId) -> Option<MemberId>
        ensures { result ≡ castout_of (directory self.now) id };

    /// How many pages are changed.
    fn changed_count(&self) -> u32
        ensures { result ≡ count_by (λ e. e.changed) (directory self.now).entries };

    /// Drops the registrations and the castout locks of a member that failed.
    fn fail_member(&mut self, member: MemberId)
        ensures { directory self.new ≡ after_fail (directory self.old) member };

    /// Loses all that the structure holds.
    fn lose(&mut self)
        ensures { directory self.new ≡ after_lose (directory self.old) };

    /// The structure is in use again.
    fn rebuilt(&mut self)
        ensures { directory self.new ≡ after_rebuilt (directory self.old) };

    /// Whether it is lost and not rebuilt.
    fn is_lost(&self) -> bool
        ensures { result ≡ (directory self.now).lost };

    /// How many frames each member has.
    fn frames(&self) -> u16
        ensures { result ≡ (directory self.now).frames };
}
