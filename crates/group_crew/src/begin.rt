//! The begin of a phase.

ghost use Rattle.std.specs.Prelude.{◌≡◌, ◌+◌, true, false, length, map, slice_get, Ok, IfOk, IfSome};
ghost use Rattle.std.specs.List.{AllZip};
ghost use Rattle.list_structure.specs.Bells.{CanRing};
ghost use Rattle.script_fates.specs.Fated.{StopsOnly};
ghost use Rattle.group_member.specs.Members.{member_of};
ghost use Rattle.group_crew.specs.Beginning.{AllRestart, BeginsNext, CannotBegin, CannotRing, PartStaysOrKnows, Rang, RestartBegins, RestartKnows, begins_restart, is_left_out_in, kept_by};
ghost use Rattle.group_crew.specs.States.{crew_state};

use crate::crew::Crew;
use cache_structure::CacheFace;
use ds_base::{NoMemory, TranId};
use ds_model::Phase;
use group_member::{MemberPart, Policy, Restarting};
use list_structure::{Lists, MemberStatus};
use script_fates::Fates;
use script_phases::{is_failed, is_left_out, part_of, raisers_of, restarts_in};
use std::alloc::Global;

// Stops the transactions of the members that are left out.
fn stop_left_out(phase: &Phase, lists: &Lists, fates: &mut Fates)
    ensures { StopsOnly (is_left_out_in phase.now lists.now.statuses) fates.old fates.new }
{
    for part in phase.parts.as_slice() {
        if is_left_out(phase, lists, part.member) {
            fates.stop_member(phase, part.member);
        }
    }
}

// Begins the restart of a member, where it has failed and the phase says so. Answers whether the bells could ring.
fn begin_restart<P>(
    alloc: Global,
    part: &mut MemberPart<P>,
    lists: &mut Lists,
    phase: &Phase,
) -> Result<bool, NoMemory>
    ensures same { begins_restart phase.now lists.old.statuses part.old.id ≡ false → (part.new ≡ part.old) × (lists.new ≡ lists.old) × (result ≡ Ok true) }
    ensures begun { begins_restart phase.now lists.old.statuses part.old.id ≡ true → IfOk result (λ begun. begun ≡ true → RestartBegins part.old lists.old part.new lists.new) }
    ensures known { begins_restart phase.now lists.old.statuses part.old.id ≡ true → IfOk result (λ begun. begun ≡ true → RestartKnows part.old part.new) }
    ensures refused { result ≡ Ok false → ¬ CanRing lists.old.bells }
    ensures rest { part.new ≡ record part.old { restart = part.new.restart } }
{
    if !is_failed(lists.status(part.id)) || !restarts_in(phase, part.id) {
        return Ok(true);
    }
    if !lists.can_ring() {
        return Ok(false);
    }
    lists.set_status(part.id, MemberStatus::Restarting);
    part.restart = Some(Restarting::new(alloc, part.id, part.known.of(part.id))?);
    Ok(true)
}

// Begins the restarts of a phase.
fn begin_restarts<P>(
    alloc: Global,
    parts: &mut [MemberPart<P>],
    lists: &mut Lists,
    phase: &Phase,
) -> Result<bool, NoMemory>
    ensures kept { map kept_by parts.new ≡ map kept_by parts.old }
    ensures each { IfOk result (λ begun. begun ≡ true → AllRestart phase.now lists.old (map member_of parts.old) (map member_of parts.new) lists.new) }
    ensures knows { IfOk result (λ begun. begun ≡ true → AllZip PartStaysOrKnows parts.old parts.new) }
    ensures rang { IfOk result (λ begun. begun ≡ true → Rang lists.old.bells (length parts.old) lists.new.bells) }
    ensures refused { result ≡ Ok false → CannotRing lists.old.bells (length parts.old) }
{
    for part in parts {
        if !begin_restart(alloc, part, lists, phase)? {
            return Ok(false);
        }
    }
    Ok(true)
}

// Gives each member its part of a phase.
fn begin_in_all<P: Policy>(
    alloc: Global,
    parts: &mut [MemberPart<P>],
    phase: &Phase,
    raisers: &[Option<TranId>],
) -> Result<(), NoMemory>
    ensures members { map member_of parts.new ≡ map member_of parts.old }
    ensures kept { map kept_by parts.new ≡ map kept_by parts.old }
{
    for part in parts {
        let (trans, fail) = part_of(alloc, phase, part.id)?;
        part.begin_phase(alloc, trans, raisers, fail)?;
    }
    Ok(())
}

impl<C: CacheFace, P: Policy> Crew<C, P> {
    /// The next phase begins. Members that have failed restart, where it says so; the transactions of those that don't are
    /// stopped. Answers whether there is such a phase, and the bells could ring.
    pub fn begin_phase(&mut self, alloc: Global) -> Result<bool, NoMemory>
        ensures happens { IfOk result (λ begun. begun ≡ true → BeginsNext (crew_state C.directory self.old) (crew_state C.directory self.new)) }
        ensures begun { IfOk result (λ begun. begun ≡ true → self.new.progress ≡ record { begun = self.old.progress.begun + 1; groupfails = 0; is_idle = false }) }
        ensures refused { result ≡ Ok false → CannotBegin (slice_get self.old.script.phases self.old.progress.begun) self.old.facility.lists.bells (length self.old.parts.items) }
        ensures stopped { IfSome (slice_get self.old.script.phases self.old.progress.begun) (λ phase. StopsOnly (is_left_out_in phase self.old.facility.lists.statuses) self.old.fates self.new.fates) }
        ensures members { map kept_by self.new.parts.items ≡ map kept_by self.old.parts.items }
        ensures others { self.new ≡ record self.old { facility = self.new.facility; parts = self.new.parts; progress = self.new.progress; fates = self.new.fates; is_own_stale = self.new.is_own_stale; was_half = self.new.was_half } }
    {
        let Some(phase) = self.script.phases.as_slice().get(self.progress.begun) else {
            return Ok(false);
        };
        let raisers = raisers_of(phase, &self.facility.lists);
        stop_left_out(phase, &self.facility.lists, &mut self.fates);
        if !begin_restarts(alloc, &mut self.parts, &mut self.facility.lists, phase)? {
            return Ok(false);
        }
        if !self.facility.lists.can_ring() {
            return Ok(false);
        }
        self.facility.begin_phase(&raisers);
        begin_in_all(alloc, &mut self.parts, phase, &raisers)?;
        self.progress.begin_phase();
        self.make_all_stale();
        Ok(true)
    }
}
