//! The commands of the lock structure.
ghost use Rattle.std.specs.Prelude.{◌≡◌, ◌≤◌, ℕ};
ghost use Rattle.list_structure.specs.Bells.{CanRing};
ghost use Rattle.facility.specs.States.{held};
ghost use Rattle.facility.specs.Commands.{CanGrant};
ghost use Rattle.facility.specs.LockCommands.{ObtainAnswers, GrantAnswers, ObtainsLock, GrantsLock, ReleasesLock, PurgesLock, ReadsRetained};

use crate::clean::Clean;
use crate::{Facility, Reply};
use cache_structure::CacheFace;
use ds_base::MemberId;
use lock_names::{Interest, Mode, Name};
use lock_structure::{GrantReply, Obtained};

impl<C: CacheFace> Facility<C> {
    /// Asks for a lock.
    pub(crate) fn obtain(&mut self, member: MemberId, name: &Name, mode: Mode) -> Reply
        requires { CanGrant self.old.locks member name.now }
        ensures { ObtainsLock (held C.directory self.old) member name.now mode result (held C.directory self.new) }
    {
        match self.locks.obtain(member, name, mode) {
            Obtained::Granted { version } => Reply::Granted { version },
            Obtained::Retained { by } => Reply::Retained { by },
            Obtained::RecordsFull { limit } => Reply::RecordsFull { limit },
            Obtained::Contention {
                share,
                exclusive,
                version,
            } => Reply::Contention {
                share,
                exclusive,
                version,
            },
        }
    }

    /// Asks for a lock about which the other members were asked, in the cells of this slot.
    #[tactic(auto, using(crate::proofs::Answers::clean_same))]
    pub(crate) fn grant(&mut self, member: MemberId, slot: u8, name: &Name, mode: Mode) -> Reply
        requires slot { slot ≤ 16 }
        requires grant { CanGrant self.old.locks member name.now }
        ensures { GrantsLock (held C.directory self.old) member slot name.now mode result (held C.directory self.new) }
    {
        let cells = self.lists.answers(member, slot);
        let clean = Clean::among(cells, name, mode);
        self.lists.empty_cells(member, slot);
        match self.locks.grant(member, name, mode, clean.as_slice()) {
            GrantReply::Granted { version } => Reply::Granted { version },
            GrantReply::Retained { by } => Reply::Retained { by },
            GrantReply::RecordsFull { limit } => Reply::RecordsFull { limit },
            GrantReply::Moved { version } => Reply::Moved { version },
        }
    }

    /// Gives up a lock; the member keeps this interest in the name's entry.
    pub(crate) fn release(&mut self, member: MemberId, name: &Name, keeps: Interest) -> Reply
        requires { CanRing self.old.lists.bells }
        ensures { ReleasesLock (held C.directory self.old) member name.now keeps result (held C.directory self.new) }
    {
        self.locks.release(member, name, keeps);
        self.lists.ring();
        Reply::Done
    }

    /// Frees a retained record.
    pub(crate) fn purge(&mut self, member: MemberId, name: &Name) -> Reply
        requires { CanRing self.old.lists.bells }
        ensures { PurgesLock (held C.directory self.old) member name.now result (held C.directory self.new) }
    {
        self.locks.purge_retained(member, name);
        self.lists.ring();
        Reply::Done
    }

    /// The member's retained record of this number, from 0.
    pub(crate) fn retained_at(&mut self, member: MemberId, n: u32) -> Reply
        ensures { ReadsRetained (held C.directory self.old) member n result (held C.directory self.new) }
    {
        match self.locks.retained(member, n) {
            Some((name, mode)) => Reply::RetainedLock { name, mode },
            None => Reply::Nothing,
        }
    }
}
