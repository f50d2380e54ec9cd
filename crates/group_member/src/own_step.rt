//! One event of a member's own.

ghost use Rattle.std.specs.Prelude.{◌≡◌, ◌≤◌, Err, IfOk};
ghost use Rattle.ds_base.specs.Causes.{Rose};
ghost use Rattle.member_intents.specs.declared.outcome.Answered.TheVariants as answered;
ghost use Rattle.member_resources.specs.Events.{world_of};
ghost use Rattle.group_member.specs.declared.fault.EventFault.TheVariants as faults;
ghost use Rattle.group_member.specs.Happening.{Acts};
ghost use Rattle.group_member.specs.Members.{member_of};
ghost use Rattle.group_member.specs.Refusing.{OwnIsRefused};

use crate::fault::EventFault;
use crate::part::MemberPart;
use cache_structure::CacheFace;
use ds_disk::Disk;
use facility::Facility;
use member_intents::{Answered, Sent};
use member_resources::Policy;
use std::alloc::Global;

/// Takes the event of a member's choice.
pub fn step_own<C: CacheFace, D: Disk, P: Policy>(
    alloc: Global,
    part: &mut MemberPart<P>,
    facility: &mut Facility<C>,
    disk: &mut D,
    choice: u64,
    place: u64,
) -> Result<(Sent, Answered), EventFault>
    ensures acts { IfOk result (λ r. Acts (member_of part.old) (world_of C.directory D.alive D.contents facility.old disk.old) place r.0 r.1 (world_of C.directory D.alive D.contents facility.new disk.new) (member_of part.new)) }
    ensures unlawful { result ≡ Err faults.Unlawful → OwnIsRefused (member_of part.old) (world_of C.directory D.alive D.contents facility.old disk.old) place (world_of C.directory D.alive D.contents facility.new disk.new) }
    ensures rest { part.new ≡ record part.old { resources = part.new.resources; policy = part.new.policy } }
    ensures later { D.faults disk.old ≤ D.faults disk.new }
    ensures failed { IfOk result (λ r. r.1 ≡ answered.Failed → Rose (D.faults disk.old) (D.faults disk.new)) }
{
    let intent = part.intent(choice);
    let (sent, answered) = part.resources.step(
        alloc,
        facility,
        disk,
        &mut part.policy,
        choice,
        &intent,
        place,
    )?;
    Ok((sent, answered))
}
