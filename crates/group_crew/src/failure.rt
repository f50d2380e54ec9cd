//! The failure of the whole group, and the group restart that follows it.

ghost use Rattle.std.specs.Prelude.{◌≡◌, ◌≤◌, All, None, Ok, IfOk, OnOk, is_some, map, true};
ghost use Rattle.ds_base.specs.Causes.{Rose};
ghost use Rattle.facility.specs.States.{held, IsReset};
ghost use Rattle.group_restart.specs.Steps.{Steps};
ghost use Rattle.group_restart.specs.declared.calls.State.TheVariants as state;
ghost use Rattle.group_member.specs.Members.{IsDown, member_of};
ghost use Rattle.group_crew.specs.Ends.{AllKnow, AllKnowEnds, AreEndsIn};
ghost use Rattle.group_crew.specs.Failing.{BeginsAnew, GroupFails, StopsLast, drive_of, last_begun};
ghost use Rattle.group_crew.specs.States.{crew_state, known_by};

use crate::crew::Crew;
use crate::ends::ends_behind;
use cache_structure::CacheFace;
use checkpoint_reader::KnownEnds;
use ds_base::{Lrsn, NoMemory};
use ds_disk::Disk;
use group_member::{GroupSizes, MemberPart, Policy};
use group_restart::{Call, GroupRestart, State};
use std::alloc::Global;

// No member has anything ready.
fn rest<P>(parts: &mut [MemberPart<P>])
    ensures members { map member_of parts.new ≡ map member_of parts.old }
    ensures known { map known_by parts.new ≡ map known_by parts.old }
{
    for part in parts {
        part.ready = 0;
    }
}

fn reset_all<P: Policy>(
    alloc: Global,
    parts: &mut [MemberPart<P>],
    sizes: &GroupSizes,
    known: &KnownEnds,
) -> Result<(), NoMemory>
    ensures down { OnOk result (All (λ part. IsDown sizes.now.sizes (member_of part)) parts.new) }
    ensures same { map (λ part. part.id) parts.new ≡ map (λ part. part.id) parts.old }
    ensures known { OnOk result (AllKnow known.now parts.new) }
{
    for part in parts {
        part.reset(alloc, sizes)?;
        part.known = known.copied();
    }
    Ok(())
}

/// Makes the next call of the disk. Answers which it was, and where the restart stands.
pub fn step_restart<D: Disk>(
    alloc: Global,
    restart: &mut GroupRestart,
    disk: &mut D,
) -> Result<(Call, State), NoMemory>
    ensures steps { IfOk result (λ r. Steps (drive_of D.alive D.contents disk.old) restart.old (Ok r.1) (drive_of D.alive D.contents disk.new) restart.new) }
    ensures later { D.faults disk.old ≤ D.faults disk.new }
    ensures failed { IfOk result (λ r. r.1 ≡ state.Failed → Rose (D.faults disk.old) (D.faults disk.new)) }
{
    let call = restart.call();
    let state = restart.step(alloc, disk)?;
    Ok((call, state))
}

impl<C: CacheFace, P: Policy> Crew<C, P> {
    // Stops the transactions of the last phase that has begun, where they have no fate.
    fn stop_phase(&mut self)
        ensures stopped { StopsLast (last_begun self.old.script self.old.progress.begun) self.old.fates self.new.fates }
        ensures rest { self.new ≡ record self.old { fates = self.new.fates } }
    {
        let Some(at) = self.progress.begun.checked_sub(1) else {
            return;
        };
        if let Some(phase) = self.script.phases.as_slice().get(at) {
            self.fates.stop_phase(phase);
        }
    }

    /// The group fails. No member goes on before the group restart, which is in hand from now on, is done.
    pub fn fail(&mut self, alloc: Global) -> Result<(), NoMemory>
        ensures fails { OnOk result (GroupFails (crew_state C.directory self.old) (crew_state C.directory self.new)) }
        ensures restart { OnOk result (is_some self.new.restart ≡ true) }
        ensures others { self.new ≡ record self.old { restart = self.new.restart; parts = self.new.parts; fates = self.new.fates } }
        ensures held { is_some self.old.restart ≡ true → is_some self.new.restart ≡ true }
    {
        let restart = GroupRestart::new(alloc)?;
        self.stop_phase();
        rest(&mut self.parts);
        self.restart = Some(restart);
        Ok(())
    }

    // Where the logs end behind the group restart in hand.
    fn ends(&self) -> KnownEnds
        ensures { AreEndsIn self.now.restart result }
    {
        match &self.restart {
            Some(restart) => ends_behind(restart),
            None => KnownEnds::nothing(),
        }
    }

    /// The group restart is done, with this counter. All begin anew, and know where the logs end behind it.
    pub fn reset(&mut self, alloc: Global, counter: Lrsn) -> Result<(), NoMemory>
        ensures anew { OnOk result (BeginsAnew counter (crew_state C.directory self.old) (crew_state C.directory self.new)) }
        ensures facility { IsReset (held C.directory self.old.facility) counter (held C.directory self.new.facility) }
        ensures members { OnOk result (All (λ part. IsDown self.old.sizes.sizes (member_of part)) self.new.parts.items) }
        ensures known { OnOk result (AllKnowEnds self.old.restart self.new.parts.items) }
        ensures restart { self.new.restart ≡ None }
        ensures others { self.new ≡ record self.old { facility = self.new.facility; parts = self.new.parts; restart = self.new.restart; is_own_stale = true; was_half = self.new.was_half } }
    {
        let known = self.ends();
        self.restart = None;
        self.facility.reset(counter);
        self.was_half = self.is_half();
        self.is_own_stale = true;
        reset_all(alloc, &mut self.parts, &self.sizes, &known)
    }
}
