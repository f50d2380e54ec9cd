//! One event of a member, whatever it is.

ghost use Rattle.std.specs.Prelude.{◌≡◌, ◌≤◌, true, false, Err, IfOk, OnOk, is_some};
ghost use Rattle.ds_base.specs.Causes.{Rose};
ghost use Rattle.facility.specs.States.{held, MemberFailed};
ghost use Rattle.list_structure.specs.Bells.{CanRing};
ghost use Rattle.member_resources.specs.Events.{world_of};
ghost use Rattle.script_fates.specs.Fated.{StopsOnly};
ghost use Rattle.group_member.specs.declared.fault.EventFault.TheVariants as faults;
ghost use Rattle.group_member.specs.Entering.{Enters};
ghost use Rattle.group_member.specs.Failing.{is_in_hand};
ghost use Rattle.group_member.specs.Happening.{Comes, Makes};
ghost use Rattle.group_member.specs.Members.{IsDown, member_of};
ghost use Rattle.group_member.specs.Refusing.{IsRefused};
ghost use Rattle.group_member.specs.Resting.{RestsIdle};
ghost use Rattle.group_member.specs.Stepping.{has_failed, is_of, kind_for};

use crate::failure::fail_one;
use crate::fates::enter_fates;
use crate::fault::EventFault;
use crate::own_step::step_own;
use crate::part::MemberPart;
use crate::ready::{DUTY, REBUILD};
use crate::rebuild_step::step_rebuild;
use crate::restart_step::step_restart;
use crate::sizes::GroupSizes;
use crate::stepped::Stepped;
use cache_structure::CacheFace;
use ds_disk::Disk;
use ds_model::Script;
use facility::Facility;
use member_resources::Policy;
use script_fates::Fates;
use std::alloc::Global;

// The event of a choice: that of the member's restart, where this is its duty, or of its rebuild, or its own.
fn make<C: CacheFace, D: Disk, P: Policy>(
    alloc: Global,
    part: &mut MemberPart<P>,
    facility: &mut Facility<C>,
    disk: &mut D,
    choice: u64,
    place: u64,
) -> Result<Stepped, EventFault>
    ensures makes { IfOk result (λ stepped. Makes (member_of part.old) (world_of C.directory D.alive D.contents facility.old disk.old) place stepped (world_of C.directory D.alive D.contents facility.new disk.new) (member_of part.new)) }
    ensures kind { IfOk result (λ stepped. is_of (kind_for choice (is_some part.old.restart)) stepped ≡ true) }
    ensures unlawful { result ≡ Err faults.Unlawful → IsRefused (member_of part.old) (world_of C.directory D.alive D.contents facility.old disk.old) place (world_of C.directory D.alive D.contents facility.new disk.new) }
    ensures rest { part.new ≡ record part.old { resources = part.new.resources; policy = part.new.policy; restart = part.new.restart; rebuild = part.new.rebuild } }
    ensures later { D.faults disk.old ≤ D.faults disk.new }
    ensures failed { IfOk result (λ stepped. has_failed stepped ≡ true → Rose (D.faults disk.old) (D.faults disk.new)) }
{
    if choice == DUTY && part.restart.is_some() {
        let (sent, answered) = step_restart(alloc, part, facility, disk, place)?;
        Ok(Stepped::Restart(sent, answered))
    } else if choice == REBUILD {
        let (sent, answered) = step_rebuild(alloc, part, facility, disk, place)?;
        Ok(Stepped::Rebuild(sent, answered))
    } else {
        let (sent, answered) = step_own(alloc, part, facility, disk, choice, place)?;
        Ok(Stepped::Sent(sent, answered))
    }
}

// The same, behind which no slot has a transaction while the member's restart is in hand.
fn make_idly<C: CacheFace, D: Disk, P: Policy>(
    alloc: Global,
    part: &mut MemberPart<P>,
    facility: &mut Facility<C>,
    disk: &mut D,
    choice: u64,
    place: u64,
) -> Result<Stepped, EventFault>
    ensures makes { IfOk result (λ stepped. Makes (member_of part.old) (world_of C.directory D.alive D.contents facility.old disk.old) place stepped (world_of C.directory D.alive D.contents facility.new disk.new) (member_of part.new)) }
    ensures idle { OnOk result (RestsIdle (member_of part.new)) }
    ensures kind { IfOk result (λ stepped. is_of (kind_for choice (is_some part.old.restart)) stepped ≡ true) }
    ensures unlawful { result ≡ Err faults.Unlawful → IsRefused (member_of part.old) (world_of C.directory D.alive D.contents facility.old disk.old) place (world_of C.directory D.alive D.contents facility.new disk.new) }
    ensures rest { part.new ≡ record part.old { resources = part.new.resources; policy = part.new.policy; restart = part.new.restart; rebuild = part.new.rebuild } }
    ensures later { D.faults disk.old ≤ D.faults disk.new }
    ensures failed { IfOk result (λ stepped. has_failed stepped ≡ true → Rose (D.faults disk.old) (D.faults disk.new)) }
{
    let stepped = make(alloc, part, facility, disk, choice, place)?;
    if part.has_begun() {
        return Err(EventFault::Unlawful);
    }
    Ok(stepped)
}

// Enters what the event has made of the member's transactions; but where a call of the disk has failed in it, the member fails.
fn settle<C: CacheFace, P: Policy>(
    alloc: Global,
    part: &mut MemberPart<P>,
    facility: &mut Facility<C>,
    fates: &mut Fates,
    script: &Script,
    begun: usize,
    sizes: &GroupSizes,
    stepped: &Stepped,
) -> Result<(), EventFault>
    ensures enters { has_failed stepped.now ≡ false → Enters (member_of part.old) fates.old (member_of part.new) fates.new }
    ensures stays { has_failed stepped.now ≡ false → held C.directory facility.new ≡ held C.directory facility.old }
    ensures fails { has_failed stepped.now ≡ true → OnOk result (MemberFailed (held C.directory facility.old) part.old.id (held C.directory facility.new)) }
    ensures down { has_failed stepped.now ≡ true → OnOk result (IsDown sizes.now.sizes (member_of part.new)) }
    ensures stops { has_failed stepped.now ≡ true → OnOk result (StopsOnly (is_in_hand script.now begun part.old.id) fates.old fates.new) }
    ensures unlawful { result ≡ Err faults.Unlawful → (has_failed stepped.now ≡ true) × ¬ CanRing facility.old.lists.bells }
    ensures stale { OnOk result (part.new.is_stale ≡ true) }
    ensures rest { part.new ≡ record part.old { resources = part.new.resources; policy = part.new.policy; restart = part.new.restart; rebuild = part.new.rebuild; is_stale = part.new.is_stale } }
{
    if stepped.has_failed() {
        return fail_one(alloc, part, facility, fates, script, begun, sizes);
    }
    enter_fates(part, fates);
    part.is_stale = true;
    Ok(())
}

/// One event of a live member, by its choice and its number: its failure, where that is due; else that of its restart or its
/// rebuild, or its own, and what it makes of the member's transactions is entered. Where a call of the disk fails in it, the
/// member fails too.
///
/// Where memory was wanting, only the disk's faults are said to be told.
pub fn step_one<C: CacheFace, D: Disk, P: Policy>(
    alloc: Global,
    part: &mut MemberPart<P>,
    facility: &mut Facility<C>,
    disk: &mut D,
    fates: &mut Fates,
    script: &Script,
    begun: usize,
    sizes: &GroupSizes,
    choice: u64,
    place: u64,
) -> Result<Stepped, EventFault>
    ensures comes { IfOk result (λ stepped. Comes script.now begun sizes.now.sizes choice (member_of part.old) (world_of C.directory D.alive D.contents facility.old disk.old) fates.old place stepped (member_of part.new) (world_of C.directory D.alive D.contents facility.new disk.new) fates.new) }
    ensures unlawful { result ≡ Err faults.Unlawful → IsRefused (member_of part.old) (world_of C.directory D.alive D.contents facility.old disk.old) place (world_of C.directory D.alive D.contents facility.new disk.new) }
    ensures stale { OnOk result (part.new.is_stale ≡ true) }
    ensures rest { part.new ≡ record part.old { resources = part.new.resources; policy = part.new.policy; restart = part.new.restart; rebuild = part.new.rebuild; is_stale = part.new.is_stale } }
    ensures later { D.faults disk.old ≤ D.faults disk.new }
    ensures failed { IfOk result (λ stepped. has_failed stepped ≡ true → Rose (D.faults disk.old) (D.faults disk.new)) }
{
    if !facility.live(part.id) {
        return Err(EventFault::Unlawful);
    }
    if part.policy.is_fail_due() {
        fail_one(alloc, part, facility, fates, script, begun, sizes)?;
        return Ok(Stepped::Failed);
    }
    let stepped = make_idly(alloc, part, facility, disk, choice, place)?;
    settle(alloc, part, facility, fates, script, begun, sizes, &stepped)?;
    Ok(stepped)
}
