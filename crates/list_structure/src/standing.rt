//! How the members stand: whether they run, are done with the phase, and rebuild the cache.
ghost use Rattle.std.specs.Prelude.{◌≡◌, ◌-◌, ◌<◌, ℕ, true, false, nat_lt, length, slice_index_or, slice_set, if◌then◌else◌, None, IfOk};
ghost use Rattle.list_structure.specs.Standings.{status_of, done_of, is_live, AreUp, AreDone, NoneDone, claim_reply, rebuilder_after, rebuilder_without};
ghost use Rattle.list_structure.specs.declared.standing.MemberStatus.TheVariants.{Down, Up};

use crate::copies::{copies, fill};
use ds_base::{MemberId, NoMemory};
use std::alloc::Global;
use std::marker::Model;

/// Whether a member runs.
#[derive(Clone, Copy, Debug, PartialEq, Eq)]
pub enum MemberStatus {
    /// It isn't part of the group, or group restart has it still to start.
    Down,
    Up,
    /// It failed, and others may wait for its retained locks.
    Failed,
    /// It runs again, and frees the retained locks of its failure.
    Restarting,
}

/// The answer to a member that offers to rebuild the cache.
#[derive(Clone, Copy, Debug, PartialEq, Eq)]
pub enum ClaimReply {
    /// The cache isn't lost.
    NotLost,
    /// Another live member rebuilds it.
    Taken { by: MemberId },
    /// The member is to rebuild it.
    Claimed,
}

impl MemberStatus {
    fn is_live(self) -> bool
        ensures { result ≡ is_live self }
    {
        matches!(self, MemberStatus::Up | MemberStatus::Restarting)
    }
}

/// The status of each member, its mark of being done with the phase, and who rebuilds the cache.
#[derive(Drop)]
pub struct Standing {
    members: u8,
    statuses: Vec<MemberStatus>,
    done: Vec<bool>,
    rebuilder: Option<MemberId>,
}

impl Model for Standing {
    ghost use Rattle.std.specs.Prelude.{◌≡◌, length};
    ghost use Rattle.list_structure.specs.Standings.{StandingState};

    ghost Value = { StandingState };

    ghost view = { λ s. record { members = s.members; statuses = s.statuses.items; done = s.done.items; rebuilder = s.rebuilder } };

    ghost invariant = { λ s. (length s.statuses.items ≡ 32) × (length s.done.items ≡ 32) };
}

impl Standing {
    /// A group of so many members. They are up and done.
    pub fn new(alloc: Global, members: u8) -> Result<Standing, NoMemory>
        ensures members { IfOk result (λ standing. standing.members ≡ members) }
        ensures statuses { IfOk result (λ standing. AreUp standing.statuses members) }
        ensures done { IfOk result (λ standing. AreDone standing.done members) }
        ensures rebuilder { IfOk result (λ standing. standing.rebuilder ≡ None) }
    {
        let mut statuses = copies(alloc, MemberStatus::Down, 32)?;
        set_up(statuses.as_mut_slice(), members);
        let mut done = copies(alloc, false, 32)?;
        set_done(done.as_mut_slice(), members);
        Ok(Standing {
            members,
            statuses,
            done,
            rebuilder: None,
        })
    }

    /// Makes it as `new` did.
    pub fn reset(&mut self)
        ensures members { self.new.members ≡ self.old.members }
        ensures statuses { AreUp self.new.statuses self.old.members }
        ensures done { AreDone self.new.done self.old.members }
        ensures rebuilder { self.new.rebuilder ≡ None }
    {
        set_up(self.statuses.as_mut_slice(), self.members);
        set_done(self.done.as_mut_slice(), self.members);
        self.rebuilder = None;
    }

    pub fn status(&self, member: MemberId) -> MemberStatus
        ensures { result ≡ status_of self.now.statuses member }
    {
        self.statuses[member.number() as usize - 1]
    }

    pub fn set_status(&mut self, member: MemberId, status: MemberStatus)
        ensures { self.new ≡ record self.old { statuses = slice_set self.old.statuses (member - 1) status } }
    {
        self.statuses[member.number() as usize - 1] = status;
    }

    /// Whether the member is up or restarting.
    pub fn is_live(&self, member: MemberId) -> bool
        ensures { result ≡ is_live (status_of self.now.statuses member) }
    {
        self.status(member).is_live()
    }

    pub fn is_done(&self, member: MemberId) -> bool
        ensures { result ≡ done_of self.now.done member }
    {
        self.done[member.number() as usize - 1]
    }

    pub fn set_done(&mut self, member: MemberId)
        ensures { self.new ≡ record self.old { done = slice_set self.old.done (member - 1) true } }
    {
        self.done[member.number() as usize - 1] = true;
    }

    /// Drops the marks of members that are done.
    pub fn clear_done(&mut self)
        ensures done { NoneDone self.new.done }
        ensures others { self.new ≡ record self.old { done = self.new.done } }
    {
        fill(self.done.as_mut_slice(), false);
    }

    /// Lets the member rebuild the cache if it is lost and no other live member does.
    pub fn claim(&mut self, member: MemberId, lost: bool) -> ClaimReply
        ensures reply { result ≡ claim_reply lost self.old.rebuilder member self.old.statuses }
        ensures others { self.new ≡ record self.old { rebuilder = rebuilder_after result member self.old.rebuilder } }
    {
        let reply = self.reply_to_claim(member, lost);
        if reply == ClaimReply::Claimed {
            self.rebuilder = Some(member);
        }
        reply
    }

    fn reply_to_claim(&self, member: MemberId, lost: bool) -> ClaimReply
        ensures { result ≡ claim_reply lost self.now.rebuilder member self.now.statuses }
    {
        if !lost {
            return ClaimReply::NotLost;
        }
        match self.rebuilder {
            Some(by) if by != member && self.is_live(by) => ClaimReply::Taken { by },
            _ => ClaimReply::Claimed,
        }
    }

    /// The member doesn't rebuild the cache any more.
    pub fn unclaim(&mut self, member: MemberId)
        ensures { self.new ≡ record self.old { rebuilder = rebuilder_without member self.old.rebuilder } }
    {
        if self.rebuilder == Some(member) {
            self.rebuilder = None;
        }
    }
}

fn set_up(statuses: &mut [MemberStatus], members: u8)
    ensures { (k : ℕ) → k < length statuses.old → slice_index_or statuses.new k Down ≡ (if nat_lt k members then Up else Down) }
{
    for place in 0..statuses.len() {
        statuses[place] = if place < members as usize {
            MemberStatus::Up
        } else {
            MemberStatus::Down
        };
    }
}

fn set_done(done: &mut [bool], members: u8)
    ensures { (k : ℕ) → k < length done.old → slice_index_or done.new k false ≡ nat_lt k members }
{
    for place in 0..done.len() {
        done[place] = place < members as usize;
    }
}
