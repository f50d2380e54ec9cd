//! One event of a member's rebuild of the lost cache.

ghost use Rattle.std.specs.Prelude.{◌≡◌, ◌⊎◌, ◌≤◌, None, true, Err, is_some, IfOk, IsSomeAnd, OnOk};
ghost use Rattle.ds_base.specs.Causes.{Rose};
ghost use Rattle.member_intents.specs.declared.outcome.Answered.TheVariants as answered;
ghost use Rattle.member_resources.specs.Events.{world_of};
ghost use Rattle.group_member.specs.declared.fault.EventFault.TheVariants as faults;
ghost use Rattle.group_member.specs.Happening.{IsInHand, RebuildMakes, Rebuilds};
ghost use Rattle.group_member.specs.Members.{member_of};
ghost use Rattle.group_member.specs.Refusing.{RebuildIsRefused};

use crate::fault::EventFault;
use crate::part::MemberPart;
use crate::ready::REBUILD;
use crate::rebuilding::Rebuilding;
use crate::stepped::is_failure;
use crate::tell::tell;
use cache_structure::CacheFace;
use ds_base::NoMemory;
use ds_disk::Disk;
use facility::Facility;
use member_intents::Answered;
use member_resources::Policy;
use rebuild_resources::RebuildSent;
use std::alloc::Global;

// A rebuild is in hand.
fn begin<P>(alloc: Global, part: &mut MemberPart<P>) -> Result<(), NoMemory>
    ensures begun { OnOk result (IsSomeAnd part.new.rebuild (IsInHand part.old.id part.old.rebuild)) }
    ensures known { part.old.rebuild ≡ None → OnOk result (IsSomeAnd part.new.rebuild (λ r. r.resources.known ≡ part.old.known)) }
    ensures rest { part.new ≡ record part.old { rebuild = part.new.rebuild } }
{
    if part.rebuild.is_none() {
        part.rebuild = Some(Rebuilding::new(alloc, part.id, &part.known)?);
    }
    Ok(())
}

// Makes the next event of the rebuild in hand.
fn make<C: CacheFace, D: Disk, P>(
    alloc: Global,
    part: &mut MemberPart<P>,
    facility: &mut Facility<C>,
    disk: &mut D,
    place: u64,
) -> Result<(RebuildSent, Answered), EventFault>
    requires { is_some part.old.rebuild ≡ true }
    ensures makes { IfOk result (λ r. IsSomeAnd part.new.rebuild (RebuildMakes (member_of part.old) (world_of C.directory D.alive D.contents facility.old disk.old) r.0 r.1 (world_of C.directory D.alive D.contents facility.new disk.new))) }
    ensures unlawful { result ≡ Err faults.Unlawful → RebuildIsRefused (member_of part.old) (world_of C.directory D.alive D.contents facility.old disk.old) (world_of C.directory D.alive D.contents facility.new disk.new) }
    ensures rest { part.new ≡ record part.old { rebuild = part.new.rebuild } }
    ensures later { D.faults disk.old ≤ D.faults disk.new }
    ensures failed { IfOk result (λ r. r.1 ≡ answered.Failed → Rose (D.faults disk.old) (D.faults disk.new)) }
{
    let Some(rebuild) = &mut part.rebuild else {
        return Err(EventFault::Unlawful);
    };
    let (sent, answered) = rebuild
        .resources
        .step(alloc, facility, disk, &mut rebuild.policy, place)?;
    Ok((sent, answered))
}

// Lets go of a rebuild that is done.
fn let_go<P>(part: &mut MemberPart<P>)
    ensures goes { (part.new.rebuild ≡ part.old.rebuild) ⊎ (part.new.rebuild ≡ None) }
    ensures rest { part.new ≡ record part.old { rebuild = part.new.rebuild } }
{
    let is_done = match &part.rebuild {
        Some(rebuild) => rebuild.is_done(),
        None => false,
    };
    if is_done {
        part.rebuild = None;
    }
}

/// Takes the event of a member's rebuild, which begins with it where none is in hand, and tells it to the member, as an event
/// in which nothing was sent.
pub fn step_rebuild<C: CacheFace, D: Disk, P: Policy>(
    alloc: Global,
    part: &mut MemberPart<P>,
    facility: &mut Facility<C>,
    disk: &mut D,
    place: u64,
) -> Result<(RebuildSent, Answered), EventFault>
    ensures rebuilds { IfOk result (λ r. Rebuilds (member_of part.old) (world_of C.directory D.alive D.contents facility.old disk.old) place r.0 r.1 (world_of C.directory D.alive D.contents facility.new disk.new) (member_of part.new)) }
    ensures unlawful { result ≡ Err faults.Unlawful → RebuildIsRefused (member_of part.old) (world_of C.directory D.alive D.contents facility.old disk.old) (world_of C.directory D.alive D.contents facility.new disk.new) }
    ensures rest { part.new ≡ record part.old { resources = part.new.resources; policy = part.new.policy; rebuild = part.new.rebuild } }
    ensures later { D.faults disk.old ≤ D.faults disk.new }
    ensures failed { IfOk result (λ r. r.1 ≡ answered.Failed → Rose (D.faults disk.old) (D.faults disk.new)) }
{
    begin(alloc, part)?;
    let (sent, answered) = make(alloc, part, facility, disk, place)?;
    if is_failure(&answered) {
        return Ok((sent, answered));
    }
    let_go(part);
    tell(alloc, part, facility, disk, REBUILD, place)?;
    Ok((sent, answered))
}
