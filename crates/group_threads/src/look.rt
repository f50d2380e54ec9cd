//! What a member's thread can take.

ghost use Rattle.std.specs.Prelude.{◌≡◌, ◌||◌, true, is_some};
ghost use Rattle.group_core.specs.Given.{unlooked};
ghost use Rattle.group_threads.specs.Wholes.{LooksHand};

use crate::hand::{Hand, next_event};
use crate::members::Members;
use crate::shared::Shared;
use cache_structure::CacheFace;
use ds_base::MemberId;
use facility::Facility;
use group_core::{Policy, look_for};
use group_member::MemberPart;
use member_intents::Look as Seen;
use turn_gate::{Laid, Look};

// The choices of the member that are ready. Of one that isn't live none is.
fn choices_of<P: Policy>(part: &MemberPart<P>, seen: &Seen, is_live: bool) -> u32 {
    if is_live { part.live_choices(seen) } else { 0 }
}

// Whether the member isn't live, or is done with the phase.
fn is_done<C: CacheFace>(facility: &Facility<C>, number: u64) -> bool {
    match MemberId::new(number) {
        Some(member) => !facility.live(member) || facility.done(member),
        None => true,
    }
}

/// Whether all live members of so many are done with the phase.
pub fn are_all_done<C: CacheFace>(facility: &Facility<C>, count: usize) -> bool {
    for number in 0..count as u64 {
        if !is_done(facility, number.wrapping_add(1)) {
            return false;
        }
    }
    true
}

impl<D, C, P> Shared<D, C, P> {
    /// Whether nothing is taken any more before the next event of the group itself.
    pub fn is_over(&self) -> bool
        ensures { result ≡ (is_some self.now.group.fault || self.now.group.crew.progress.is_idle) }
    {
        self.group.fault.is_some() || self.group.crew.progress.is_idle
    }

    // Whether what is ready of the member has to be found again.
    fn is_stale(&self, part: &MemberPart<P>) -> bool {
        part.is_stale || self.stale.has(part.id)
    }
}

impl<D, C: CacheFace, P: Policy> Shared<D, C, P> {
    // Finds the choices of the member that are ready.
    fn find(&self, part: &MemberPart<P>) -> u32 {
        let crew = &self.group.crew;
        let seen = look_for(&crew.facility, crew.was_half, part);
        choices_of(part, &seen, crew.facility.live(part.id))
    }

    // The choices of the member that are ready.
    fn ready_of(&self, part: &MemberPart<P>) -> u32 {
        if self.is_stale(part) {
            self.find(part)
        } else {
            part.ready
        }
    }

    /// Finds again what is ready of the member, where that may have changed. Where the run has a fault nothing is.
    pub fn refresh(&mut self, part: &mut MemberPart<P>)
        ensures shared { self.new ≡ record self.old { stale = self.new.stale } }
        ensures part { unlooked part.new ≡ unlooked part.old }
        ensures over { is_some self.old.group.fault ≡ true → part.new.ready ≡ 0 }
    {
        if self.group.fault.is_some() {
            part.ready = 0;
        } else if self.is_stale(part) {
            part.ready = self.find(part);
            part.is_stale = false;
            self.stale.remove(part.id);
        }
    }

    // Whether something of the member may be ready once the bells have rung.
    fn may_be_woken(&self, part: &MemberPart<P>) -> bool {
        let crew = &self.group.crew;
        let is_live = crew.facility.live(part.id);
        let mut seen = look_for(&crew.facility, crew.was_half, part);
        seen.bell = u64::MAX;
        if choices_of(part, &seen, is_live) != 0 {
            return true;
        }
        seen.waits_for_live = !seen.waits_for_live;
        choices_of(part, &seen, is_live) != 0
    }

    /// Finds again whether a ringing of the bells concerns the member.
    pub fn find_listening(&mut self, part: &MemberPart<P>)
        ensures { self.new ≡ record self.old { listening = self.new.listening } }
    {
        if part.ready != 0 || self.may_be_woken(part) {
            self.listening.join(Members::one(part.id));
        } else {
            self.listening.remove(part.id);
        }
    }

    /// A phase begins with these members. A ringing of the bells concerns those that are live.
    pub fn find_all_listening(&mut self, hands: &[Laid<Hand<P>>])
        ensures { self.new ≡ record self.old { listening = self.new.listening } }
    {
        for hand in hands {
            let id = hand.get().part.id;
            if !self.group.crew.facility.live(id) {
                self.listening.remove(id);
            }
        }
    }

    /// What the member can take, from this number on.
    pub fn find_event(&self, hand: &Hand<P>, from: u64) -> Look
        ensures { LooksHand self.now hand.now from result }
    {
        if self.is_over() {
            return Look::Over;
        }
        let ready = self.ready_of(&hand.part);
        match next_event(ready, hand.part.id.number() % 64, from) {
            Some(event) => Look::Ready(event),
            None => Look::NotYet,
        }
    }
}
