ghost use Rattle.std.specs.Prelude.{◌≡◌, ◌↔◌, ℕ, None, true, false, is_some, map, slice_get};
ghost use Rattle.list_structure.specs.Bells.{bell_of};
ghost use Rattle.list_structure.specs.Cells.{NoneAsked};
ghost use Rattle.list_structure.specs.Standings.{done_of};
ghost use Rattle.script_phases.specs.Progresses.{is_at_end, own_choice};
ghost use Rattle.group_crew.specs.Ready.{is_own, ready_at};
ghost use Rattle.group_crew.specs.Crews.{Looks, is_half, is_ready_in, stale, unlooked};
ghost use Rattle.group_crew.specs.Happening.{member_at};
ghost use Rattle.group_crew.specs.States.{crew_state, known_by};

use cache_structure::CacheFace;
use ds_base::Volume;
use ds_model::Script;
use facility::Facility;
use group_member::{GroupSizes, MemberPart, Policy, has_choice};
use group_restart::GroupRestart;
use member_intents::Look;
use script_fates::Fates;
use script_phases::{GROUP_RESTART, Progress};

/// The members of a group with their facility, the script that they play, and its fates.
#[derive(Drop)]
pub struct Crew<C, P> {
    pub facility: Facility<C>,
    pub parts: Vec<MemberPart<P>>,
    pub script: Script,
    pub progress: Progress,
    /// The group has failed, and its restart is in hand.
    pub restart: Option<GroupRestart>,
    pub fates: Fates,
    /// Whether all members are done has to be found again.
    pub is_own_stale: bool,
    /// Whether more than half of the cache's entries were changed when the members were last looked at.
    pub was_half: bool,
    pub sizes: GroupSizes,
}

fn make_stale<P>(parts: &mut [MemberPart<P>])
    ensures { parts.new ≡ map stale parts.old }
{
    for part in parts {
        part.is_stale = true;
    }
}

// Whether a postponed rollback of the member waits for a live one.
fn waits_for_live<C: CacheFace, P>(facility: &Facility<C>, part: &MemberPart<P>) -> bool {
    for at in 0..u32::MAX {
        match part.resources.marks().postponed(at) {
            Some((_, by)) if facility.live(by) => return true,
            Some(_) => {}
            None => return false,
        }
    }
    false
}

/// What is seen for a member before an event.
pub fn look_for<C: CacheFace, P>(
    facility: &Facility<C>,
    is_half: bool,
    part: &MemberPart<P>,
) -> Look
    ensures bell { result.bell ≡ bell_of facility.now.lists.bells part.now.id }
    ensures asked { (result.asked ≡ false) ↔ NoneAsked facility.now.lists.cells part.now.id }
    ensures half { is_half ≡ true → result.is_half ≡ true }
    ensures lost { result.is_lost ≡ (C.directory facility.now.cache).lost }
    ensures done { result.is_done ≡ done_of facility.now.lists.done part.now.id }
{
    Look {
        bell: facility.bell(part.id),
        asked: facility.asked(part.id),
        is_half: is_half || part.waits_for_room(),
        is_lost: facility.lost(),
        is_done: facility.done(part.id),
        waits_for_live: waits_for_live(facility, part),
    }
}

// Finds again which choices of the member are ready, where that may have changed.
fn find_in<C: CacheFace, P: Policy>(facility: &Facility<C>, is_half: bool, part: &mut MemberPart<P>)
    ensures { unlooked part.new ≡ unlooked part.old }
{
    if part.is_stale {
        let look = look_for(facility, is_half, part);
        part.find_ready(&look, facility.live(part.id));
    }
}

// Finds again which choices of members are ready, of those alone for which that may have changed.
fn find_in_all<C: CacheFace, P: Policy>(
    facility: &Facility<C>,
    is_half: bool,
    parts: &mut [MemberPart<P>],
)
    ensures { map unlooked parts.new ≡ map unlooked parts.old }
{
    for part in parts {
        find_in(facility, is_half, part);
    }
}

fn are_all_done<C: CacheFace, P>(facility: &Facility<C>, parts: &[MemberPart<P>]) -> bool {
    for part in parts {
        if facility.live(part.id) && !facility.done(part.id) {
            return false;
        }
    }
    true
}

fn is_own(own: Option<u64>, choice: u64) -> bool
    ensures { result ≡ is_own own choice }
{
    match own {
        Some(own) => own == choice,
        None => false,
    }
}

// Whether the choice of the member at a place is ready.
fn has_ready<P>(parts: &[MemberPart<P>], at: usize, choice: u64) -> bool
    ensures { result ≡ ready_at (slice_get (map (λ part. part.ready) parts.now) at) choice }
{
    match parts.get(at) {
        Some(part) => has_choice(part.ready, choice),
        None => false,
    }
}

impl<C, P> Crew<C, P> {
    /// Whether the script is played.
    pub fn is_played(&self) -> bool
        ensures { result ≡ is_at_end (is_some self.now.restart) self.now.progress self.now.script }
    {
        self.restart.is_none() && self.progress.is_played(&self.script)
    }

    /// The choice of the group itself that is ready.
    pub fn own_choice(&self) -> Option<u64>
        ensures { result ≡ own_choice (is_some self.now.restart) self.now.progress self.now.script }
    {
        if self.restart.is_some() {
            Some(GROUP_RESTART)
        } else {
            self.progress.choice(&self.script)
        }
    }

    /// Whether the event's choice is ready.
    pub fn is_ready(&self, event: u64) -> bool
        ensures { result ≡ is_ready_in self.now event }
    {
        let choice = event / 64;
        match ((event % 64) as usize).checked_sub(1) {
            None => is_own(self.own_choice(), choice),
            Some(at) => self.restart.is_none() && has_ready(&self.parts, at, choice),
        }
    }
}

impl<C: CacheFace, P> Crew<C, P> {
    /// Whether more than half of the cache's entries are changed.
    pub fn is_half(&self) -> bool
        ensures { result ≡ is_half self.now.sizes.sizes (C.directory self.now.facility.cache) }
    {
        2 * self.facility.changed_count() as u64 > self.sizes.sizes.cache as u64
    }

    /// A bell has rung, or what is seen for all members has changed.
    pub fn make_all_stale(&mut self)
        ensures rest { self.new ≡ record self.old { parts = self.new.parts; is_own_stale = true; was_half = self.new.was_half } }
        ensures parts { self.new.parts.items ≡ map stale self.old.parts.items }
        ensures members { (k : ℕ) → member_at self.new.parts.items k ≡ member_at self.old.parts.items k }
        ensures known { map known_by self.new.parts.items ≡ map known_by self.old.parts.items }
        ensures half { self.new.was_half ≡ is_half self.old.sizes.sizes (C.directory self.old.facility.cache) }
    {
        self.was_half = self.is_half();
        self.is_own_stale = true;
        make_stale(&mut self.parts);
    }

    // Finds again whether all members are done, where that may have changed.
    fn find_idle(&mut self)
        ensures { self.new ≡ record self.old { progress = record self.old.progress { is_idle = self.new.progress.is_idle }; is_own_stale = self.new.is_own_stale } }
    {
        if self.is_own_stale {
            self.progress.is_idle = are_all_done(&self.facility, &self.parts);
            self.is_own_stale = false;
        }
    }
}

impl<C: CacheFace, P: Policy> Crew<C, P> {
    /// Finds again which choices are ready, where that may have changed. While a group restart is in hand no member has any.
    pub fn find_ready(&mut self)
        ensures looks { Looks self.old self.new }
        ensures same { crew_state C.directory self.new ≡ crew_state C.directory self.old }
    {
        if self.restart.is_some() {
            return;
        }
        find_in_all(&self.facility, self.was_half, &mut self.parts);
        self.find_idle();
    }

    /// A byte that a member has read and that can't stand there.
    pub fn damage_at(&self, at: usize) -> Option<(Volume, u64)>
        ensures { slice_get self.now.parts.items at ≡ None → result ≡ None }
    {
        match self.parts.get(at) {
            Some(part) => part.damage(),
            None => None,
        }
    }
}
