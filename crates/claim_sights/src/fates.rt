//! What is to be looked for, by the fate of a transaction.

ghost use Rattle.std.specs.Prelude.{◌≡◌, IfOk};
ghost use Rattle.claim_sights.specs.Quests as spec;

use crate::quest::Quest;
use ds_base::{MemberId, NoMemory, TranId};
use ds_model::{Cycle, Entry, Fate, Name, Refusal};
use script_fates::Cause;
use std::alloc::Global;

fn cause_of(causes: &[Cause], number: u32) -> u64
    ensures { result ≡ spec.cause_of causes.now number }
{
    for cause in causes {
        if cause.number == number {
            return cause.place;
        }
    }
    0
}

fn no_quest(alloc: Global, tran: TranId) -> Quest
    ensures { result ≡ spec.no_quest tran }
{
    Quest {
        tran,
        others: Cycle::new(alloc),
        cause: 0,
        name: None,
        retainer: None,
    }
}

fn copied(alloc: Global, trans: &[TranId]) -> Result<Cycle, NoMemory>
    ensures { IfOk result (λ copy. copy ≡ trans.now) }
{
    let mut copy = Cycle::new(alloc);
    for tran in trans {
        copy.push(*tran)?;
    }
    Ok(copy)
}

// All but the first.
fn others_of(alloc: Global, cycle: &[TranId]) -> Result<Cycle, NoMemory>
    ensures { IfOk result (λ others. others ≡ spec.others_of cycle.now) }
{
    match cycle {
        [_, rest @ ..] => copied(alloc, rest),
        [] => Ok(Cycle::new(alloc)),
    }
}

fn cycle_quest(alloc: Global, tran: TranId, cycle: &[TranId], cause: u64) -> Result<Quest, NoMemory>
    ensures { IfOk result (λ quest. quest ≡ spec.cycle_quest tran cycle.now cause) }
{
    Ok(Quest {
        tran,
        others: others_of(alloc, cycle)?,
        cause,
        name: None,
        retainer: None,
    })
}

fn lock_quest(
    alloc: Global,
    tran: TranId,
    name: Name,
    retainer: Option<MemberId>,
    cause: u64,
) -> Quest
    ensures { result ≡ spec.lock_quest tran name retainer cause }
{
    Quest {
        tran,
        others: Cycle::new(alloc),
        cause,
        name: Some(name),
        retainer,
    }
}

// By a refusal that was caused at this event.
fn with_refusal(
    alloc: Global,
    tran: TranId,
    refusal: &Refusal,
    place: u64,
) -> Result<Quest, NoMemory>
    ensures { IfOk result (λ quest. quest ≡ spec.with_refusal tran refusal.now place) }
{
    match refusal {
        Refusal::Deadlock { cycle } => cycle_quest(alloc, tran, cycle.as_slice(), place),
        Refusal::Held { name, .. } => Ok(lock_quest(alloc, tran, *name, None, place)),
        Refusal::Retained { name, by } => Ok(lock_quest(alloc, tran, *name, Some(*by), place)),
        Refusal::SpaceFull { .. }
        | Refusal::RecordsFull { .. }
        | Refusal::LrsnEnd { .. }
        | Refusal::Memory
        | Refusal::Aborted => Ok(no_quest(alloc, tran)),
    }
}

fn quest_by(alloc: Global, entry: &Entry, place: u64) -> Result<Quest, NoMemory>
    ensures { IfOk result (λ quest. quest ≡ spec.quest_by entry.now place) }
{
    let tran = TranId {
        member: entry.member,
        number: entry.tran.number,
    };
    match &entry.fate {
        Fate::Refused(refusal) => with_refusal(alloc, tran, refusal, place),
        Fate::Committed { .. } | Fate::Stopped => Ok(no_quest(alloc, tran)),
    }
}

/// What is to be looked for by the fate of the transaction with this number, where it has one.
pub fn quest_of(
    alloc: Global,
    number: u32,
    entries: &[Entry],
    causes: &[Cause],
) -> Result<Option<Quest>, NoMemory>
    ensures { IfOk result (λ quest. quest ≡ spec.quest_of number entries.now causes.now) }
{
    for entry in entries {
        if entry.tran.number == number {
            return Ok(Some(quest_by(alloc, entry, cause_of(causes, number))?));
        }
    }
    Ok(None)
}
