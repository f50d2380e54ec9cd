//! The replay as a whole.
//!
//! The run is played three times: for the fates, for what was in question where, and for since when claims stood.

ghost use Rattle.std.specs.Prelude.{◌≡◌, ◌≤◌, map, IfOk, IfErr, OnOk};
ghost use Rattle.claim_sights.specs.Quests as spec;
ghost use Rattle.lock_sights.specs.Lines.{sights_text};
ghost use Rattle.run_replay.specs.Beginning.{AreDated, AreFound, AsksFor, IsFollowed, IsParted, IsUntold, Replays, Tells, WereSeen};
ghost use Rattle.run_replay.specs.Follows.{FollowsAll, StopsIn};

use crate::begin::{Stage, begin};
use crate::dates::find_dates;
use crate::fault::ReplayFault;
use crate::follow::take_event;
use crate::looks::look;
use cache_structure::CacheFace;
use claim_sights::{Quest, quest_of};
use ds_base::{Bytes, NoMemory, Sizes};
use ds_disk::Disk;
use ds_model::{EventLine, Script, Tran};
use group_core::{Group, Policy};
use lock_sights::{Sight, number_named, put_sights, roster_of};
use std::alloc::Global;

// Plays all events.
fn follow<D: Disk, C: CacheFace, P: Policy>(
    alloc: Global,
    group: &mut Group<D, C, P>,
    events: &[EventLine],
) -> Result<(), ReplayFault>
    ensures ok { OnOk result (FollowsAll C.directory D.alive D.contents D.faults group.old events.now group.new) }
    ensures err { IfErr result (StopsIn C.directory D.alive D.contents D.faults group.old events.now) }
{
    for event in events {
        take_event(alloc, group, event)?;
    }
    Ok(())
}

// The group behind all events.
fn followed(
    alloc: Global,
    script: &Script,
    sizes: &Sizes,
    events: &[EventLine],
) -> Result<Stage, ReplayFault>
    requires { (1 ≤ sizes.now.locks) × (1 ≤ sizes.now.pool) }
    ensures ok { IfOk result (IsFollowed script.now events.now) }
    ensures err { IfErr result (IsParted script.now events.now) }
{
    let mut group = begin(alloc, script, sizes)?;
    follow(alloc, &mut group, events)?;
    Ok(group)
}

// What is to be looked for, by the fates to which the group has come.
fn quest_in(alloc: Global, group: Stage, number: u32) -> Result<Option<Quest>, NoMemory>
    ensures { IfOk result (λ quest. quest ≡ spec.quest_of number group.crew.fates.entries group.crew.fates.causes) }
{
    let (_disk, played, _closed) = group.close(alloc);
    quest_of(alloc, number, &played.entries, &played.causes)
}

// The same, of a run.
fn find_quest(
    alloc: Global,
    script: &Script,
    sizes: &Sizes,
    events: &[EventLine],
    number: u32,
) -> Result<Option<Quest>, ReplayFault>
    requires { (1 ≤ sizes.now.locks) × (1 ≤ sizes.now.pool) }
    ensures ok { IfOk result (AsksFor script.now events.now number) }
    ensures err { IfErr result (IsParted script.now events.now) }
{
    let group = followed(alloc, script, sizes, events)?;
    let quest = quest_in(alloc, group, number)?;
    Ok(quest)
}

// What is seen of the transaction in a run.
fn sights_of(
    alloc: Global,
    script: &Script,
    sizes: &Sizes,
    events: &[EventLine],
    roster: &[&Tran],
    quest: &Quest,
) -> Result<Vec<Sight>, ReplayFault>
    requires { (1 ≤ sizes.now.locks) × (1 ≤ sizes.now.pool) }
    ensures ok { IfOk result (λ sights. WereSeen script.now events.now (map (λ t. t.now) roster.now) quest.now sights.items) }
    ensures err { IfErr result (IsParted script.now events.now) }
{
    let mut group = begin(alloc, script, sizes)?;
    let sights = look(alloc, &mut group, roster, events, quest)?;
    Ok(sights)
}

// Since when the claims stood, in a run.
fn date_all(
    alloc: Global,
    script: &Script,
    sizes: &Sizes,
    events: &[EventLine],
    sights: &mut [Sight],
) -> Result<(), ReplayFault>
    requires { (1 ≤ sizes.now.locks) × (1 ≤ sizes.now.pool) }
    ensures ok { OnOk result (AreDated script.now events.now sights.old sights.new) }
    ensures err { IfErr result (IsParted script.now events.now) }
{
    let mut group = begin(alloc, script, sizes)?;
    find_dates(alloc, &mut group, sights, events)?;
    Ok(())
}

// The same, with since when claims stood.
fn dated_sights(
    alloc: Global,
    script: &Script,
    sizes: &Sizes,
    events: &[EventLine],
    roster: &[&Tran],
    quest: &Quest,
) -> Result<Vec<Sight>, ReplayFault>
    requires { (1 ≤ sizes.now.locks) × (1 ≤ sizes.now.pool) }
    ensures ok { IfOk result (λ sights. AreFound script.now events.now (map (λ t. t.now) roster.now) quest.now sights.items) }
    ensures err { IfErr result (IsParted script.now events.now) }
{
    let mut sights = sights_of(alloc, script, sizes, events, roster, quest)?;
    date_all(alloc, script, sizes, events, &mut sights)?;
    Ok(sights)
}

fn text_of(alloc: Global, roster: &[&Tran], sights: &[Sight]) -> Result<Bytes, NoMemory>
    ensures { IfOk result (λ text. text ≡ sights_text (map (λ t. t.now) roster.now) sights.now) }
{
    let mut out = Bytes::new(alloc);
    put_sights(alloc, &mut out, roster, sights)?;
    Ok(out)
}

// What is told of the transaction with this number.
fn tell(
    alloc: Global,
    script: &Script,
    sizes: &Sizes,
    events: &[EventLine],
    roster: &[&Tran],
    quest: &Quest,
) -> Result<Bytes, ReplayFault>
    requires { (1 ≤ sizes.now.locks) × (1 ≤ sizes.now.pool) }
    ensures ok { IfOk result (Tells script.now events.now (map (λ t. t.now) roster.now) quest.now) }
    ensures err { IfErr result (IsParted script.now events.now) }
{
    let sights = dated_sights(alloc, script, sizes, events, roster, quest)?;
    let text = text_of(alloc, roster, &sights)?;
    Ok(text)
}

/// Plays a script once more over an empty disk, by a group of these sizes and by the events of its trace, and tells in
/// lines what the transaction of this name waited for: which locks and flags, and who held them, since when.
pub fn replay(
    alloc: Global,
    script: &Script,
    sizes: &Sizes,
    events: &[EventLine],
    name: &[u8],
) -> Result<Bytes, ReplayFault>
    requires { (1 ≤ sizes.now.locks) × (1 ≤ sizes.now.pool) }
    ensures told { IfOk result (Replays script.now events.now name.now) }
    ensures untold { IfErr result (IsUntold script.now events.now name.now) }
{
    let roster = roster_of(alloc, script)?;
    let Some(number) = number_named(&roster, name) else {
        return Err(ReplayFault::NoTransaction);
    };
    match find_quest(alloc, script, sizes, events, number)? {
        Some(quest) => tell(alloc, script, sizes, events, &roster, &quest),
        None => Err(ReplayFault::NoTransaction),
    }
}
