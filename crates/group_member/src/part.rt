ghost use Rattle.std.specs.Prelude.{◌≡◌, ◌<◌, ◌^◌, None, true, false, is_some, OnOk};
ghost use Rattle.group_member.specs.Members.{IsDown, member_of};
ghost use Rattle.group_member.specs.Queries.{answers_held, asker_in, is_held, query_in};
ghost use Rattle.group_member.specs.Resting.{RestsIdle, changes_locks, frees_claimed, touches_pages};

use crate::ready::{all_choices, ready_choices};
use crate::rebuilding::Rebuilding;
use crate::restarting::Restarting;
use crate::resting::{changes_locks, frees_claimed, has_tran, touches_pages};
use crate::sizes::GroupSizes;
use checkpoint_reader::KnownEnds;
use ds_base::{MemberId, NoMemory, TranId, Volume};
use ds_model::{FailAt, TranList};
use list_structure::Asker;
use lock_names::Name;
use member_intents::{Intent, Look};
use member_resources::{Policy, Resources};
use restart_marks::RestartSent;
use std::alloc::Global;

// Who has asked about which lock, where the intent is to answer that.
fn query_in(intent: &Intent) -> Option<(Asker, Name)>
    ensures { result ≡ query_in intent.now }
{
    match *intent {
        Intent::Answer { asker, name, .. } => Some((asker, name)),
        _ => None,
    }
}

/// A member: what it holds, what decides where it goes on, and which of its choices are ready.
#[derive(Drop)]
pub struct MemberPart<P> {
    pub id: MemberId,
    pub resources: Resources,
    pub policy: P,
    /// It has failed, and restarts.
    pub restart: Option<Restarting>,
    /// The cache is lost, and this member rebuilds it, or waits for the one that does.
    pub rebuild: Option<Rebuilding>,
    /// Up to where the logs are known to be whole records since the last group restart.
    pub known: KnownEnds,
    /// A bit for each choice.
    pub ready: u32,
    /// What is ready has to be found again.
    pub is_stale: bool,
}

impl<P> MemberPart<P> {
    /// Whether the member's restart waits for room in the cache.
    pub fn waits_for_room(&self) -> bool
        ensures { self.now.restart ≡ None → result ≡ false }
    {
        match &self.restart {
            Some(restart) => restart.waits_for_room(),
            None => false,
        }
    }

    // A byte that the member's restart has read and that can't stand there.
    fn restart_damage(&self) -> Option<(Volume, u64)> {
        match &self.restart {
            Some(restart) => restart.damage(),
            None => None,
        }
    }

    // A byte that the member's rebuild has read and that can't stand there.
    fn rebuild_damage(&self) -> Option<(Volume, u64)> {
        match &self.rebuild {
            Some(rebuild) => rebuild.damage(),
            None => None,
        }
    }

    // Whether the member's restart has the lock of this page.
    fn is_held(&self, name: &Name) -> bool
        ensures { result ≡ is_held self.now.restart name.now }
    {
        match &self.restart {
            Some(restart) => restart.holds(name),
            None => false,
        }
    }

    /// Whether the restart has freed a record whose name the member claims.
    pub fn frees_claimed(&self, sent: &RestartSent) -> bool
        ensures { result ≡ frees_claimed self.now.resources.marks sent.now }
    {
        frees_claimed(self.resources.marks(), sent)
    }

    /// Whether a slot has a transaction while the restart is in hand.
    pub fn has_begun(&self) -> bool
        ensures begun { result ≡ true → ¬ RestsIdle (member_of self.now) }
        ensures idle { result ≡ false → RestsIdle (member_of self.now) }
    {
        self.restart.is_some() && has_tran(self.resources.marks())
    }
}

impl<P: Policy> MemberPart<P> {
    /// The member's part of a phase begins.
    pub fn begin_phase(
        &mut self,
        alloc: Global,
        trans: TranList,
        raisers: &[Option<TranId>],
        fail: Option<FailAt>,
    ) -> Result<(), NoMemory>
        ensures { self.new ≡ record self.old { policy = self.new.policy } }
    {
        self.policy.begin_phase(alloc, trans, raisers, fail)
    }

    /// The choices of a live member that are ready: all of them, where the member is to fail.
    pub fn live_choices(&self, look: &Look) -> u32
        ensures { result < 2 ^ 23 }
    {
        if self.policy.is_fail_due() {
            all_choices()
        } else {
            ready_choices(&self.policy, &self.restart, &self.rebuild, look)
        }
    }

    /// Finds what is ready again, if that may have changed. Of a member that isn't live nothing is.
    pub fn find_ready(&mut self, look: &Look, is_live: bool)
        ensures fresh { self.old.is_stale ≡ false → self.new ≡ self.old }
        ensures found { self.new.is_stale ≡ false }
        ensures bits { self.old.is_stale ≡ true → self.new.ready < 2 ^ 23 }
        ensures down { self.old.is_stale ≡ true → is_live ≡ false → self.new.ready ≡ 0 }
        ensures rest { self.new ≡ record self.old { ready = self.new.ready; is_stale = self.new.is_stale } }
    {
        if self.is_stale {
            self.ready = if is_live { self.live_choices(look) } else { 0 };
            self.is_stale = false;
        }
    }

    // Who has asked about a page whose lock the member's restart has, where the intent is to answer that.
    fn asker_passed(&self, intent: &Intent) -> Option<Asker>
        ensures { result ≡ asker_in self.now.restart (query_in intent.now) }
    {
        let (asker, name) = query_in(intent)?;
        if self.is_held(&name) {
            Some(asker)
        } else {
            None
        }
    }

    // What a choice wants. A query about a page whose lock the member's restart has isn't answered: the next one is taken
    // past its asker.
    fn intent_passing(&self, choice: u64) -> Intent
        ensures { answers_held self.now.restart result ≡ false }
    {
        let intent = self.policy.intent(choice, &self.resources);
        match self.asker_passed(&intent) {
            Some(asker) => Intent::Take { after: Some(asker) },
            None => intent,
        }
    }

    /// What a choice wants. A query about a page whose lock the member's restart has isn't answered, and while that restart
    /// is in hand no locks are changed, and no page, log record or cache is touched but by a castout.
    pub fn intent(&self, choice: u64) -> Intent
        ensures keeps { answers_held self.now.restart result ≡ false }
        ensures rests { is_some self.now.restart ≡ true → changes_locks result ≡ false }
        ensures leaves { is_some self.now.restart ≡ true → touches_pages result ≡ false }
    {
        let intent = self.intent_passing(choice);
        if self.restart.is_some() && (changes_locks(&intent) || touches_pages(&intent)) {
            Intent::Step
        } else {
            intent
        }
    }

    /// A byte that the member has read and that can't stand there.
    pub fn damage(&self) -> Option<(Volume, u64)> {
        if let Some(damage) = self.restart_damage() {
            return Some(damage);
        }
        match self.rebuild_damage() {
            Some(damage) => Some(damage),
            None => self.policy.damage(),
        }
    }

    /// All that the member had is gone, its restart and its rebuild too.
    pub fn fail(&mut self, alloc: Global, sizes: &GroupSizes) -> Result<(), NoMemory>
        ensures down { OnOk result (IsDown sizes.now.sizes (member_of self.new)) }
        ensures stale { OnOk result (self.new.is_stale ≡ true) }
        ensures rest { self.new ≡ record self.old { resources = self.new.resources; policy = self.new.policy; restart = self.new.restart; rebuild = self.new.rebuild; is_stale = self.new.is_stale } }
    {
        self.resources = Resources::new(alloc, self.id, &sizes.sizes)?;
        self.restart = None;
        self.rebuild = None;
        self.policy.fail();
        self.is_stale = true;
        Ok(())
    }

    /// All that the member had is gone, and it may begin anew.
    pub fn reset(&mut self, alloc: Global, sizes: &GroupSizes) -> Result<(), NoMemory>
        ensures down { OnOk result (IsDown sizes.now.sizes (member_of self.new)) }
        ensures stale { OnOk result (self.new.is_stale ≡ true) }
        ensures rest { self.new ≡ record self.old { resources = self.new.resources; policy = self.new.policy; restart = self.new.restart; rebuild = self.new.rebuild; is_stale = self.new.is_stale } }
    {
        self.fail(alloc, sizes)?;
        self.policy.open();
        Ok(())
    }
}
