//! One event of a member's restart.

ghost use Rattle.std.specs.Prelude.{◌≡◌, ◌≢◌, ◌≤◌, true, Err, IfOk, OnOk, IsSomeAnd, is_some};
ghost use Rattle.ds_base.specs.Causes.{Rose};
ghost use Rattle.member_intents.specs.declared.outcome.Answered.TheVariants as answered;
ghost use Rattle.member_resources.specs.Events.{world_of};
ghost use Rattle.group_member.specs.declared.fault.EventFault.TheVariants as faults;
ghost use Rattle.group_member.specs.Happening.{RestartMakes, Restarts};
ghost use Rattle.group_member.specs.Members.{member_of};
ghost use Rattle.group_member.specs.Refusing.{RestartIsRefused, RestartStepIsRefused};
ghost use Rattle.group_member.specs.Restarting.{is_up_in, GoesOnFrom, HandsOverFrom, OpenIsRefused, TakesFrom};

use crate::adopt::adopt_all;
use crate::fault::EventFault;
use crate::part::MemberPart;
use crate::ready::DUTY;
use crate::stepped::is_failure;
use crate::tell::tell;
use cache_structure::CacheFace;
use ds_base::NoMemory;
use ds_disk::Disk;
use facility::Facility;
use member_intents::Answered;
use member_resources::Policy;
use restart_marks::{Adopted, RestartSent};
use std::alloc::Global;

// Makes the next event of the restart in hand.
fn make<C: CacheFace, D: Disk, P>(
    alloc: Global,
    part: &mut MemberPart<P>,
    facility: &mut Facility<C>,
    disk: &mut D,
    place: u64,
) -> Result<(RestartSent, Answered), EventFault>
    requires { is_some part.old.restart ≡ true }
    ensures makes { IfOk result (λ r. IsSomeAnd part.new.restart (RestartMakes (member_of part.old) (world_of C.directory D.alive D.contents facility.old disk.old) r.0 r.1 (world_of C.directory D.alive D.contents facility.new disk.new))) }
    ensures unlawful { result ≡ Err faults.Unlawful → RestartIsRefused (member_of part.old) (world_of C.directory D.alive D.contents facility.old disk.old) (world_of C.directory D.alive D.contents facility.new disk.new) }
    ensures rest { part.new ≡ record part.old { restart = part.new.restart } }
    ensures later { D.faults disk.old ≤ D.faults disk.new }
    ensures failed { IfOk result (λ r. r.1 ≡ answered.Failed → Rose (D.faults disk.old) (D.faults disk.new)) }
{
    let Some(restart) = &mut part.restart else {
        return Err(EventFault::Unlawful);
    };
    let (sent, answered) = restart
        .resources
        .step(alloc, facility, disk, &mut restart.policy, place)?;
    Ok((sent, answered))
}

// Whether the member is up by its restart.
fn is_up<P>(part: &MemberPart<P>) -> bool
    ensures { result ≡ is_up_in part.now.restart }
{
    match &part.restart {
        Some(restart) => restart.resources.marks().is_up(),
        None => false,
    }
}

// Takes out what is still open where the restart has ended, and waits for another member.
fn take_left<P>(alloc: Global, part: &mut MemberPart<P>) -> Result<Option<Adopted>, NoMemory>
    ensures takes { IfOk result (λ left. TakesFrom part.old.restart left part.new.restart) }
    ensures rest { part.new ≡ record part.old { restart = part.new.restart } }
{
    match &mut part.restart {
        Some(restart) => restart.take_left(alloc),
        None => Ok(None),
    }
}

// Takes over what the restart has left open, if it waits for another member.
fn hand_over<P: Policy>(alloc: Global, part: &mut MemberPart<P>) -> Result<(), EventFault>
    ensures hands { OnOk result (HandsOverFrom part.old.restart part.old.resources part.new.restart part.new.resources) }
    ensures unlawful { result ≡ Err faults.Unlawful → OpenIsRefused part.old.restart part.old.resources }
    ensures rest { part.new ≡ record part.old { resources = part.new.resources; policy = part.new.policy; restart = part.new.restart } }
{
    match take_left(alloc, part)? {
        Some(left) => adopt_all(alloc, part, &left),
        None => Ok(()),
    }
}

// Opens the member, if its restart is over; else takes over what that has left open.
fn go_on<P: Policy>(alloc: Global, part: &mut MemberPart<P>) -> Result<(), EventFault>
    ensures goes { OnOk result (GoesOnFrom part.old.restart part.old.resources part.new.restart part.new.resources) }
    ensures unlawful { result ≡ Err faults.Unlawful → OpenIsRefused part.old.restart part.old.resources }
    ensures rest { part.new ≡ record part.old { resources = part.new.resources; policy = part.new.policy; restart = part.new.restart } }
{
    if is_up(part) {
        part.restart = None;
        part.policy.open();
        return Ok(());
    }
    hand_over(alloc, part)
}

/// Takes the event of a member's restart, and tells it to the member, as an event in which nothing was sent.
pub fn step_restart<C: CacheFace, D: Disk, P: Policy>(
    alloc: Global,
    part: &mut MemberPart<P>,
    facility: &mut Facility<C>,
    disk: &mut D,
    place: u64,
) -> Result<(RestartSent, Answered), EventFault>
    requires { is_some part.old.restart ≡ true }
    ensures restarts { IfOk result (λ r. Restarts (member_of part.old) (world_of C.directory D.alive D.contents facility.old disk.old) place r.0 r.1 (world_of C.directory D.alive D.contents facility.new disk.new) (member_of part.new)) }
    ensures unlawful { result ≡ Err faults.Unlawful → RestartStepIsRefused (member_of part.old) (world_of C.directory D.alive D.contents facility.old disk.old) (world_of C.directory D.alive D.contents facility.new disk.new) }
    ensures rest { part.new ≡ record part.old { resources = part.new.resources; policy = part.new.policy; restart = part.new.restart } }
    ensures later { D.faults disk.old ≤ D.faults disk.new }
    ensures failed { IfOk result (λ r. r.1 ≡ answered.Failed → Rose (D.faults disk.old) (D.faults disk.new)) }
{
    let (sent, answered) = make(alloc, part, facility, disk, place)?;
    if part.frees_claimed(&sent) {
        return Err(EventFault::Unlawful);
    }
    if is_failure(&answered) {
        return Ok((sent, answered));
    }
    go_on(alloc, part)?;
    tell(alloc, part, facility, disk, DUTY, place)?;
    Ok((sent, answered))
}
