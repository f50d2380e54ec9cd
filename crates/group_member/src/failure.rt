//! The failure of a member.

ghost use Rattle.std.specs.Prelude.{◌≡◌, Err, OnOk, true};
ghost use Rattle.facility.specs.States.{held, MemberFailed};
ghost use Rattle.list_structure.specs.Bells.{CanRing};
ghost use Rattle.script_fates.specs.Fated.{StopsOnly};
ghost use Rattle.group_member.specs.declared.fault.EventFault.TheVariants as faults;
ghost use Rattle.group_member.specs.Failing.{is_in_hand};
ghost use Rattle.group_member.specs.Members.{IsDown, member_of};

use crate::fault::EventFault;
use crate::part::MemberPart;
use crate::sizes::GroupSizes;
use cache_structure::CacheFace;
use ds_base::MemberId;
use ds_model::Script;
use facility::Facility;
use member_resources::Policy;
use script_fates::Fates;
use std::alloc::Global;

// Stops the member's transactions of the phase that began last, where they have no fate.
fn stop_member(script: &Script, begun: usize, member: MemberId, fates: &mut Fates)
    ensures { StopsOnly (is_in_hand script.now begun member) fates.old fates.new }
{
    let Some(at) = begun.checked_sub(1) else {
        return;
    };
    if let Some(phase) = script.phases.as_slice().get(at) {
        fates.stop_member(phase, member);
    }
}

/// The member fails: what it had is gone, its transactions without a fate are stopped, and its locks under which it changed
/// something are retained. The bells must ring.
pub fn fail_one<C: CacheFace, P: Policy>(
    alloc: Global,
    part: &mut MemberPart<P>,
    facility: &mut Facility<C>,
    fates: &mut Fates,
    script: &Script,
    begun: usize,
    sizes: &GroupSizes,
) -> Result<(), EventFault>
    ensures facility { OnOk result (MemberFailed (held C.directory facility.old) part.old.id (held C.directory facility.new)) }
    ensures down { OnOk result (IsDown sizes.now.sizes (member_of part.new)) }
    ensures stops { OnOk result (StopsOnly (is_in_hand script.now begun part.old.id) fates.old fates.new) }
    ensures unlawful { result ≡ Err faults.Unlawful → ¬ CanRing facility.old.lists.bells }
    ensures stale { OnOk result (part.new.is_stale ≡ true) }
    ensures rest { part.new ≡ record part.old { resources = part.new.resources; policy = part.new.policy; restart = part.new.restart; rebuild = part.new.rebuild; is_stale = part.new.is_stale } }
{
    if !facility.lists.can_ring() {
        return Err(EventFault::Unlawful);
    }
    facility.fail(part.id);
    part.fail(alloc, sizes)?;
    stop_member(script, begun, part.id, fates);
    Ok(())
}
