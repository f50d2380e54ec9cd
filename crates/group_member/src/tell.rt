//! What a member is told of its restart or its rebuild.

ghost use Rattle.std.specs.Prelude.{◌≡◌, ◌≢◌, ◌≤◌, Err, OnOk};
ghost use Rattle.member_resources.specs.Events.{world_of};
ghost use Rattle.group_member.specs.declared.fault.EventFault.TheVariants as faults;
ghost use Rattle.group_member.specs.Happening.{Tells};

use crate::fault::EventFault;
use crate::part::MemberPart;
use cache_structure::CacheFace;
use ds_disk::Disk;
use facility::Facility;
use member_intents::Intent;
use member_resources::Policy;
use std::alloc::Global;

/// Tells the member that its restart or its rebuild has made its event, as an event of its own in which nothing is sent.
pub fn tell<C: CacheFace, D: Disk, P: Policy>(
    alloc: Global,
    part: &mut MemberPart<P>,
    facility: &mut Facility<C>,
    disk: &mut D,
    choice: u64,
    place: u64,
) -> Result<(), EventFault>
    ensures tells { OnOk result (Tells part.old.resources place part.new.resources) }
    ensures world { OnOk result (world_of C.directory D.alive D.contents facility.new disk.new ≡ world_of C.directory D.alive D.contents facility.old disk.old) }
    ensures lawful { result ≢ Err faults.Unlawful }
    ensures rest { part.new ≡ record part.old { resources = part.new.resources; policy = part.new.policy } }
    ensures later { D.faults disk.old ≤ D.faults disk.new }
{
    let _told = part.resources.step(
        alloc,
        facility,
        disk,
        &mut part.policy,
        choice,
        &Intent::Step,
        place,
    )?;
    Ok(())
}
