ghost use Rattle.std.specs.Prelude.{◌≡◌, IfOk};
ghost use Rattle.member_restart.specs.Held.{IsNew, KnowsTo};
ghost use Rattle.group_member.specs.Happening.{Takes};
ghost use Rattle.group_member.specs.Queries.{is_claimed_in};

use ds_base::{MemberId, NoMemory, Volume};
use lock_names::Name;
use member_restart::{Ended, MemberRestart, RestartResources};
use restart_marks::Adopted;
use std::alloc::Global;

/// The restart of a member: what it holds until the member is up, and what decides where it goes on.
#[derive(Drop)]
pub struct Restarting {
    pub resources: RestartResources,
    pub policy: MemberRestart,
}

impl Restarting {
    /// Nothing is done yet, and the member's log is known to be whole records up to this byte.
    pub fn new(alloc: Global, member: MemberId, known: u64) -> Result<Restarting, NoMemory>
        ensures fresh { IfOk result (λ restarting. IsNew member restarting.resources) }
        ensures known { IfOk result (λ restarting. KnowsTo known restarting.resources) }
    {
        Ok(Restarting {
            resources: RestartResources::new(alloc, member, known)?,
            policy: MemberRestart::new(alloc),
        })
    }

    /// Takes out what is still open where it has ended, and waits for another member.
    pub fn take_left(&mut self, alloc: Global) -> Result<Option<Adopted>, NoMemory>
        ensures { IfOk result (λ left. Takes self.old left self.new) }
    {
        let Some(Ended::Waits { .. }) = self.policy.ended() else {
            return Ok(None);
        };
        self.resources.take_open(alloc)
    }

    /// Whether its next event may be taken, where the bell has rung so often.
    pub(crate) fn is_ready(&self, bell: u64) -> bool {
        match self.policy.waits() {
            Some(until) => until < bell,
            None => true,
        }
    }

    /// Whether it waits for room in the cache.
    pub(crate) fn waits_for_room(&self) -> bool {
        self.policy.waits_for_room()
    }

    /// Whether it has the lock of this page.
    pub fn holds(&self, name: &Name) -> bool
        ensures { result ≡ is_claimed_in self.now.resources.marks name.now }
    {
        match name {
            Name::Page(page) => self.resources.marks().is_claimed(*page),
            Name::Space(_) | Name::Row(..) | Name::Set(_) => false,
        }
    }

    /// A byte that it has read and that can't stand there.
    pub(crate) fn damage(&self) -> Option<(Volume, u64)> {
        match self.policy.ended() {
            Some(Ended::Damaged { volume, at }) => Some((volume, at)),
            _ => None,
        }
    }
}
