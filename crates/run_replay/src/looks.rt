//! What is seen of a transaction in the course of a run.

ghost use Rattle.std.specs.Prelude.{◌≡◌, ◌++◌, [], map, IfOk, IfErr, OnOk};
ghost use Rattle.claim_sights.specs.Seen.{asks, seen_before, seen_behind};
ghost use Rattle.run_replay.specs.Follows.{Stops, StopsIn};
ghost use Rattle.run_replay.specs.Seen.{Looks, LooksAll, marks_of};

use crate::fault::ReplayFault;
use crate::follow::take_event;
use crate::held::marks_of;
use cache_structure::CacheFace;
use claim_sights::{Flag, Quest, asks, look_at_failure, look_behind};
use ds_base::NoMemory;
use ds_disk::Disk;
use ds_model::{EventLine, Tran};
use group_core::{Group, MemberPart, Policy};
use lock_sights::Sight;
use member_intents::Intent;
use std::alloc::Global;

/// What is seen before an event.
#[derive(Drop)]
struct Before {
    sights: Vec<Sight>,
    /// The transaction asks for a lock that isn't granted at once, or begins to wait.
    has_asked: bool,
    /// The flag for which it waits, by its member's policy.
    flag: Option<Flag>,
}

// The flag for which a transaction waits in an event that is to come, by its member's policy.
fn flag_in<P: Policy>(parts: &[MemberPart<P>], event: &EventLine) -> Option<Flag> {
    let part = parts.get((event.member as usize).checked_sub(1)?)?;
    match part.intent(event.choice) {
        Intent::Wait { holder, flag, .. } if flag != 0 => Some(Flag {
            number: flag,
            raiser: holder,
        }),
        _ => None,
    }
}

fn look_before<P: Policy>(
    alloc: Global,
    parts: &[MemberPart<P>],
    event: &EventLine,
    quest: &Quest,
) -> Result<Before, NoMemory>
    ensures sights { IfOk result (λ b. b.sights.items ≡ seen_before (marks_of parts.now) quest.now event.now) }
    ensures asked { IfOk result (λ b. b.has_asked ≡ asks (marks_of parts.now) quest.now.tran event.now) }
{
    let all = marks_of(alloc, parts)?;
    let sights = look_at_failure(alloc, &all, quest, event)?;
    let has_asked = asks(&all, &quest.tran, event);
    let flag = if has_asked {
        flag_in(parts, event)
    } else {
        None
    };
    Ok(Before {
        sights,
        has_asked,
        flag,
    })
}

fn look_after<P>(
    alloc: Global,
    parts: &[MemberPart<P>],
    roster: &[&Tran],
    place: u64,
    quest: &Quest,
    before: &Before,
) -> Result<Vec<Sight>, NoMemory>
    ensures { IfOk result (λ sights. sights.items ≡ seen_behind (marks_of parts.now) (map (λ t. t.now) roster.now) place quest.now before.now.has_asked before.now.flag) }
{
    let all = marks_of(alloc, parts)?;
    look_behind(
        alloc,
        &all,
        roster,
        place,
        quest,
        before.has_asked,
        before.flag,
    )
}

fn put_sights(sights: &mut Vec<Sight>, before: &[Sight], behind: &[Sight]) -> Result<(), NoMemory>
    ensures { OnOk result (sights.new.items ≡ (sights.old.items ++ before.now) ++ behind.now) }
{
    sights.extend_from_slice(before)?;
    sights.extend_from_slice(behind)?;
    Ok(())
}

// Takes the next event of a trace, and adds what is seen before and behind it.
fn look_once<D: Disk, C: CacheFace, P: Policy>(
    alloc: Global,
    group: &mut Group<D, C, P>,
    sights: &mut Vec<Sight>,
    roster: &[&Tran],
    event: &EventLine,
    quest: &Quest,
) -> Result<(), ReplayFault>
    ensures ok { OnOk result (Looks C.directory D.alive D.contents D.faults (map (λ t. t.now) roster.now) quest.now group.old sights.old.items event.now group.new sights.new.items) }
    ensures err { IfErr result (Stops C.directory D.alive D.contents D.faults group.old event.now group.new) }
{
    let before = look_before(alloc, &group.crew.parts, event, quest)?;
    take_event(alloc, group, event)?;
    let behind = look_after(
        alloc,
        &group.crew.parts,
        roster,
        event.place,
        quest,
        &before,
    )?;
    put_sights(sights, &before.sights, &behind)?;
    Ok(())
}

/// Plays the events of a trace once more, and tells what is seen of the transactions in question.
pub fn look<D: Disk, C: CacheFace, P: Policy>(
    alloc: Global,
    group: &mut Group<D, C, P>,
    roster: &[&Tran],
    events: &[EventLine],
    quest: &Quest,
) -> Result<Vec<Sight>, ReplayFault>
    ensures ok { IfOk result (λ sights. LooksAll C.directory D.alive D.contents D.faults (map (λ t. t.now) roster.now) quest.now group.old [] events.now group.new sights.items) }
    ensures err { IfErr result (StopsIn C.directory D.alive D.contents D.faults group.old events.now) }
{
    let mut sights = Vec::new(alloc);
    for event in events {
        look_once(alloc, group, &mut sights, roster, event, quest)?;
    }
    Ok(sights)
}
