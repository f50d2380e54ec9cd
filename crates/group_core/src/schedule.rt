//! Which event is next.

ghost use Rattle.std.specs.Prelude.{◌≡◌, ◌≤◌, ◌<◌, ◌+◌, ◌*◌, ◌/◌, ◌%◌, ℕ, true, false, length, map, take, slice_get, option_map, IfOk, IfNone, IfSome, OnErr, OnSome, Contains, Some};
ghost use Rattle.draw_generator.specs.Draws.{next_state};
ghost use Rattle.group_core.specs.declared.fault.RunFault.TheVariants as fault;
ghost use Rattle.group_core.specs.Ends.{Ends};
ghost use Rattle.group_core.specs.Events.{TakesNone, events_from, is_over, member_events, own_event, ready_events, takes};
ghost use Rattle.group_core.specs.Goes.{Goes};
ghost use Rattle.group_core.specs.Runs.{IsDrawn, RunsOn};

use crate::group::Group;
use cache_structure::CacheFace;
use draw_generator::Generator;
use ds_base::NoMemory;
use ds_disk::Disk;
use group_crew::{CHOICES, MemberPart, Policy, count_choices, nth_choice};
use std::alloc::Global;

/// How many members the number of an event can name.
const NAMED: usize = 63;

/// How a run of events ended.
#[derive(Clone, Copy, Debug, PartialEq, Eq)]
pub enum RunEnd {
    /// The script is played, or there is a fault.
    Over,
    /// No choice is ready.
    Stalled,
    /// All events were taken.
    Spent,
}

// The members that the number of an event can name.
fn named<P>(parts: &[MemberPart<P>]) -> &[MemberPart<P>]
    ensures value { result.now ≡ take 63 parts.now }
    ensures few { length result.now ≤ 63 }
{
    if parts.len() < NAMED {
        parts
    } else {
        &parts[..NAMED]
    }
}

// How many events of these members are ready.
fn count_events<P>(parts: &[MemberPart<P>]) -> u64
    requires { length parts.now ≤ 63 }
    ensures number { result ≡ length (events_from 1 (map (λ part. part.ready) parts.now)) }
    ensures few { result ≤ 63 * 23 }
{
    let mut count = 0u64;
    for part in parts {
        count += count_choices(part.ready);
    }
    count
}

// The event of a choice of the member with this number.
fn event_of(choice: Option<u64>, member: u64) -> Option<u64>
    requires choice { IfSome choice (λ choice. choice < 23) }
    requires member { member < 64 }
    ensures { result ≡ option_map (λ choice. choice * 64 + member) choice }
{
    match choice {
        Some(choice) => Some(choice * 64 + member),
        None => None,
    }
}

// The ready event of these members before which so many others stand, by member and then by choice.
fn nth_event<P>(parts: &[MemberPart<P>], n: u64) -> Option<u64>
    requires { length parts.now ≤ 63 }
    ensures { result ≡ slice_get (events_from 1 (map (λ part. part.ready) parts.now)) n }
{
    let mut left = n;
    for (at, part) in parts.iter().enumerate() {
        let count = count_choices(part.ready);
        if left < count {
            return event_of(nth_choice(part.ready, left as u32), at as u64 + 1);
        }
        left -= count;
    }
    None
}

impl<D, C, P> Group<D, C, P> {
    /// The event of the group itself that is ready.
    pub fn own_event(&self) -> Option<u64>
        ensures { result ≡ own_event self.now.crew }
    {
        match self.crew.own_choice() {
            Some(choice) => Some(choice * 64),
            None => None,
        }
    }

    // The least event of a choice from this number on that is taken.
    fn least_of(&self, choice: u64, least: u64) -> Option<u64>
        requires { choice < 23 }
        ensures taken { IfSome result (λ event. takes self.now event ≡ true) }
        ensures within { IfSome result (λ event. (least ≤ event) × (event / 64 ≡ choice)) }
        ensures first { IfSome result (λ event. (e : ℕ) → least ≤ e → e / 64 ≡ choice → e < event → takes self.now e ≡ false) }
        ensures none { IfNone result ((e : ℕ) → least ≤ e → e / 64 ≡ choice → takes self.now e ≡ false) }
    {
        let first = least.max(choice * 64);
        let end = choice * 64 + self.crew.parts.len().min(NAMED) as u64 + 1;
        for event in first..end {
            if self.is_taken(event) {
                return Some(event);
            }
        }
        None
    }

    /// The least number of a ready event from this one on.
    pub fn ready(&self, least: u64) -> Option<u64>
        ensures taken { IfSome result (λ event. takes self.now event ≡ true) }
        ensures from { IfSome result (λ event. least ≤ event) }
        ensures first { IfSome result (λ event. (e : ℕ) → least ≤ e → e < event → takes self.now e ≡ false) }
        ensures none { IfNone result ((e : ℕ) → least ≤ e → takes self.now e ≡ false) }
    {
        for choice in least / 64..CHOICES {
            let found = self.least_of(choice, least);
            if found.is_some() {
                return found;
            }
        }
        None
    }

    // How many events of members are ready.
    fn count_members(&self) -> u64
        ensures number { result ≡ length (member_events self.now.crew) }
        ensures few { result ≤ 63 * 23 }
    {
        if self.crew.restart.is_some() {
            return 0;
        }
        count_events(named(&self.crew.parts))
    }

    // The ready event of a member before which so many others of members stand.
    fn nth_member(&self, n: u64) -> Option<u64>
        ensures { result ≡ slice_get (member_events self.now.crew) n }
    {
        if self.crew.restart.is_some() {
            return None;
        }
        nth_event(named(&self.crew.parts), n)
    }

    fn count_ready(&self) -> u64
        ensures { result ≡ length (ready_events self.now.crew) }
    {
        let own_count = if self.own_event().is_some() { 1 } else { 0 };
        self.count_members() + own_count
    }

    // The ready event before which so many others stand: the one of the group itself stands first.
    fn nth_ready(&self, n: u64) -> Option<u64>
        ensures { result ≡ slice_get (ready_events self.now.crew) n }
    {
        let Some(own) = self.own_event() else {
            return self.nth_member(n);
        };
        match n.checked_sub(1) {
            Some(after) => self.nth_member(after),
            None => Some(own),
        }
    }

    // The event that the seeded schedule takes. Where none is ready, nothing is drawn.
    fn pick(&self, generator: &mut Generator) -> Option<u64>
        requires { is_over self.now ≡ false }
        ensures drawn { IfSome result (λ event. IsDrawn self.now generator.old event) }
        ensures all { (event : ℕ) → takes self.now event ≡ true → Contains (ready_events self.now.crew) event }
        ensures next { OnSome result (generator.new ≡ next_state generator.old) }
        ensures none { IfNone result (TakesNone self.now) }
        ensures still { IfNone result (generator.new ≡ generator.old) }
    {
        let count = self.count_ready();
        if count == 0 {
            return None;
        }
        self.nth_ready(generator.draw_below(count))
    }

    /// How a run stands behind its last event.
    pub fn standing(&self) -> RunEnd
        ensures { Ends result self.now }
    {
        if self.is_over() {
            RunEnd::Over
        } else if self.ready(0).is_none() {
            RunEnd::Stalled
        } else {
            RunEnd::Spent
        }
    }
}

/// Takes at most so many events, each drawn from those that are ready.
pub fn run_one_thread<D: Disk, C: CacheFace, P: Policy>(
    alloc: Global,
    group: &mut Group<D, C, P>,
    generator: &mut Generator,
    events: u64,
) -> Result<RunEnd, NoMemory>
    ensures ends { IfOk result (λ end. Ends end group.new) }
    ensures runs { IfOk result (λ end. RunsOn C.directory D.alive D.contents D.faults group.old generator.old events end group.new generator.new) }
    ensures goes { Goes (D.faults group.old.disk) group.old.faults.items group.old.fault (D.faults group.new.disk) group.new.faults.items group.new.fault }
    ensures wanting { OnErr result (group.new.fault ≡ Some fault.NoMemory) }
{
    for _taken in 0..events {
        if group.is_over() {
            return Ok(RunEnd::Over);
        }
        let Some(event) = group.pick(generator) else {
            return Ok(RunEnd::Stalled);
        };
        group.step(alloc, event)?;
    }
    Ok(group.standing())
}
