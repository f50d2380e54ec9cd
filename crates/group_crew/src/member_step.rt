//! One event of a member of the group.

ghost use Rattle.std.specs.Prelude.{◌≡◌, ◌≢◌, ◌≤◌, ℕ, true, map, Err, IfOk, option_copied};
ghost use Rattle.ds_base.specs.Causes.{Rose};
ghost use Rattle.group_member.specs.Happening.{world_of};
ghost use Rattle.group_crew.specs.Crews.{Keeps};
ghost use Rattle.group_crew.specs.Sendings.{command_of};
ghost use Rattle.group_crew.specs.Happening.{ComesAt, IsRefusedAt, member_at};
ghost use Rattle.group_crew.specs.States.{known_by};
ghost use Rattle.group_member.specs.declared.fault.EventFault.TheVariants as faults;
ghost use Rattle.group_member.specs.Stepping.{has_failed};

use crate::crew::Crew;
use cache_structure::CacheFace;
use ds_base::MemberId;
use ds_disk::Disk;
use ds_model::Script;
use facility::{Command, Facility};
use group_member::{
    EventFault, GroupSizes, MemberPart, Policy, RebuildSent, RestartSent, Stepped, step_one,
};
use member_intents::Sent;
use script_fates::Fates;
use std::alloc::Global;

// The event of a choice of the member at a place.
fn step_at<C: CacheFace, D: Disk, P: Policy>(
    alloc: Global,
    parts: &mut [MemberPart<P>],
    at: usize,
    facility: &mut Facility<C>,
    disk: &mut D,
    fates: &mut Fates,
    script: &Script,
    begun: usize,
    sizes: &GroupSizes,
    choice: u64,
    place: u64,
) -> Result<Stepped, EventFault>
    ensures comes { IfOk result (λ stepped. ComesAt script.now begun sizes.now.sizes choice (member_at parts.old at) (world_of C.directory D.alive D.contents facility.old disk.old) fates.old place stepped (member_at parts.new at) (world_of C.directory D.alive D.contents facility.new disk.new) fates.new) }
    ensures unlawful { result ≡ Err faults.Unlawful → IsRefusedAt (member_at parts.old at) (world_of C.directory D.alive D.contents facility.old disk.old) place (world_of C.directory D.alive D.contents facility.new disk.new) }
    ensures others { (k : ℕ) → k ≢ at → member_at parts.new k ≡ member_at parts.old k }
    ensures known { map known_by parts.new ≡ map known_by parts.old }
    ensures later { D.faults disk.old ≤ D.faults disk.new }
    ensures failed { IfOk result (λ stepped. has_failed stepped ≡ true → Rose (D.faults disk.old) (D.faults disk.new)) }
{
    if at >= parts.len() {
        return Err(EventFault::Unlawful);
    }
    let part = &mut parts[at];
    step_one(
        alloc, part, facility, disk, fates, script, begun, sizes, choice, place,
    )
}

fn make_stale_at<P>(parts: &mut [MemberPart<P>], member: MemberId)
    ensures members { (k : ℕ) → member_at parts.new k ≡ member_at parts.old k }
    ensures known { map known_by parts.new ≡ map known_by parts.old }
{
    let at = member.number() as usize - 1;
    if at < parts.len() {
        parts[at].is_stale = true;
    }
}

/// The command that was sent.
pub fn command_of(stepped: &Stepped) -> Option<&Command>
    ensures { option_copied result ≡ command_of stepped.now }
{
    match stepped {
        Stepped::Sent(Sent::Command(command), _)
        | Stepped::Restart(RestartSent::Command(command), _)
        | Stepped::Rebuild(RebuildSent::Command(command), _) => Some(command),
        Stepped::Sent(..) | Stepped::Restart(..) | Stepped::Rebuild(..) | Stepped::Failed => None,
    }
}

impl<C: CacheFace, P: Policy> Crew<C, P> {
    // Whether the event has changed what is seen for all members, where these were the bells and the loss before it.
    fn concerns_all(
        &self,
        command: Option<&Command>,
        bell: u64,
        was_lost: bool,
        member: MemberId,
    ) -> bool {
        matches!(command, Some(Command::Grant { .. }))
            || self.facility.bell(member) != bell
            || self.facility.lost() != was_lost
            || self.is_half() != self.was_half
    }

    fn make_asked_stale(&mut self, member: MemberId)
        ensures members { (k : ℕ) → member_at self.new.parts.items k ≡ member_at self.old.parts.items k }
        ensures known { map known_by self.new.parts.items ≡ map known_by self.old.parts.items }
        ensures rest { self.new ≡ record self.old { parts = self.new.parts } }
    {
        make_stale_at(&mut self.parts, member);
    }

    // Whom the event concerns is to be looked at again.
    fn make_others_stale(&mut self, stepped: &Stepped, bell: u64, was_lost: bool, member: MemberId)
        ensures members { (k : ℕ) → member_at self.new.parts.items k ≡ member_at self.old.parts.items k }
        ensures known { map known_by self.new.parts.items ≡ map known_by self.old.parts.items }
        ensures rest { self.new ≡ record self.old { parts = self.new.parts; is_own_stale = self.new.is_own_stale; was_half = self.new.was_half } }
    {
        let command = command_of(stepped);
        if self.concerns_all(command, bell, was_lost, member) {
            self.make_all_stale();
        } else if let Some(Command::Ask { to, .. }) = command {
            self.make_asked_stale(*to);
        }
    }

    /// Takes the event of a choice of the member at a place; or, where it is to fail, that instead. It fails too where a call
    /// of the disk has failed. Whom the event concerns is looked at again.
    pub fn step_member<D: Disk>(
        &mut self,
        alloc: Global,
        disk: &mut D,
        at: usize,
        choice: u64,
        place: u64,
    ) -> Result<Stepped, EventFault>
        ensures comes { IfOk result (λ stepped. ComesAt self.old.script self.old.progress.begun self.old.sizes.sizes choice (member_at self.old.parts.items at) (world_of C.directory D.alive D.contents self.old.facility disk.old) self.old.fates place stepped (member_at self.new.parts.items at) (world_of C.directory D.alive D.contents self.new.facility disk.new) self.new.fates) }
        ensures unlawful { result ≡ Err faults.Unlawful → IsRefusedAt (member_at self.old.parts.items at) (world_of C.directory D.alive D.contents self.old.facility disk.old) place (world_of C.directory D.alive D.contents self.new.facility disk.new) }
        ensures others { (k : ℕ) → k ≢ at → member_at self.new.parts.items k ≡ member_at self.old.parts.items k }
        ensures known { map known_by self.new.parts.items ≡ map known_by self.old.parts.items }
        ensures later { D.faults disk.old ≤ D.faults disk.new }
        ensures failed { IfOk result (λ stepped. has_failed stepped ≡ true → Rose (D.faults disk.old) (D.faults disk.new)) }
        ensures keeps { Keeps self.old self.new }
        ensures rest { self.new ≡ record self.old { facility = self.new.facility; parts = self.new.parts; fates = self.new.fates; is_own_stale = self.new.is_own_stale; was_half = self.new.was_half } }
    {
        let Some(part) = self.parts.get(at) else {
            return Err(EventFault::Unlawful);
        };
        let member = part.id;
        let bell = self.facility.bell(member);
        let was_lost = self.facility.lost();
        let stepped = step_at(
            alloc,
            &mut self.parts,
            at,
            &mut self.facility,
            disk,
            &mut self.fates,
            &self.script,
            self.progress.begun,
            &self.sizes,
            choice,
            place,
        )?;
        self.make_others_stale(&stepped, bell, was_lost, member);
        Ok(stepped)
    }
}
