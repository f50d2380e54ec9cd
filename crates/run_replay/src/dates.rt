//! Since when claims stood.

ghost use Rattle.std.specs.Prelude.{◌≡◌, IfErr, OnOk};
ghost use Rattle.claim_sights.specs.Dates.{sights_after};
ghost use Rattle.run_replay.specs.Follows.{Stops, StopsIn};
ghost use Rattle.run_replay.specs.Seen.{Dates, DatesAll, marks_of};

use crate::fault::ReplayFault;
use crate::follow::take_event;
use crate::held::marks_of;
use cache_structure::CacheFace;
use claim_sights::follow_all;
use ds_base::NoMemory;
use ds_disk::Disk;
use ds_model::EventLine;
use group_core::{Group, MemberPart, Policy};
use lock_sights::Sight;
use std::alloc::Global;

fn follow_on<P>(
    alloc: Global,
    sights: &mut [Sight],
    parts: &[MemberPart<P>],
    place: u64,
) -> Result<(), NoMemory>
    ensures { OnOk result (sights.new ≡ sights_after (marks_of parts.now) place sights.old) }
{
    let all = marks_of(alloc, parts)?;
    follow_all(sights, &all, place);
    Ok(())
}

// Takes the next event of a trace, and follows the claims on.
fn date_once<D: Disk, C: CacheFace, P: Policy>(
    alloc: Global,
    group: &mut Group<D, C, P>,
    sights: &mut [Sight],
    event: &EventLine,
) -> Result<(), ReplayFault>
    ensures ok { OnOk result (Dates C.directory D.alive D.contents D.faults group.old sights.old event.now group.new sights.new) }
    ensures err { IfErr result (Stops C.directory D.alive D.contents D.faults group.old event.now group.new) }
{
    take_event(alloc, group, event)?;
    follow_on(alloc, sights, &group.crew.parts, event.place)?;
    Ok(())
}

/// Plays the events of a trace once more, and finds since when the claims stood that were seen.
pub fn find_dates<D: Disk, C: CacheFace, P: Policy>(
    alloc: Global,
    group: &mut Group<D, C, P>,
    sights: &mut [Sight],
    events: &[EventLine],
) -> Result<(), ReplayFault>
    ensures ok { OnOk result (DatesAll C.directory D.alive D.contents D.faults group.old sights.old events.now group.new sights.new) }
    ensures err { IfErr result (StopsIn C.directory D.alive D.contents D.faults group.old events.now) }
{
    for event in events {
        date_once(alloc, group, sights, event)?;
    }
    Ok(())
}
