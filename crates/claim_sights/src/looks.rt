//! What is seen before and behind an event.

ghost use Rattle.std.specs.Prelude.{◌≡◌, ◌++◌, map, Some, option_map, IfOk, OnOk};
ghost use Rattle.std.specs.List.{flat_map};
ghost use Rattle.claim_sights.specs.Seen as spec;

use crate::flag::Flag;
use crate::quest::Quest;
use crate::seats::{is_awaited, marks_at, seat_of};
use crate::sights::{failure_sights, put_flag_sight, put_sights_for};
use ds_base::{MemberId, NoMemory, TranId};
use ds_model::{EventLine, Name, Tran};
use lock_sights::Sight;
use member_marks::Marks;
use std::alloc::Global;

// Whether a transaction asks for a lock that isn't granted at once, or begins to wait.
fn is_asking(event: &EventLine) -> bool
    ensures { result ≡ spec.is_asking event.now }
{
    let command = event.command.as_slice();
    command == b"wait".as_slice()
        || command == b"obtain".as_slice() && event.reply.as_slice() != b"granted".as_slice()
}

fn is_slot(choice: u64, slot: Option<u8>) -> bool
    ensures { result ≡ spec.is_slot choice slot }
{
    match slot {
        Some(slot) => slot as u64 == choice,
        None => false,
    }
}

fn sits_at(tran: &TranId, choice: u64, marks: Option<&Marks>) -> bool
    ensures { result ≡ spec.sits_at tran.now choice (option_map (λ m. m.now) marks.entry) }
{
    match marks {
        Some(marks) => is_slot(choice, seat_of(marks, tran)),
        None => false,
    }
}

/// Whether the transaction asks for a lock that isn't granted at once, or begins to wait, in an event that is to come.
pub fn asks(all: &[&Marks], tran: &TranId, event: &EventLine) -> bool
    ensures { result ≡ spec.asks (map (λ m. m.now) all.now) tran.now event.now }
{
    let member = tran.member.number();
    is_asking(event)
        && event.member as u64 == member
        && sits_at(tran, event.choice, marks_at(all, member))
}

// Adds what a transaction has asked for, or the flag that it awaits.
fn put_asked(
    alloc: Global,
    sights: &mut Vec<Sight>,
    all: &[&Marks],
    roster: &[&Tran],
    place: u64,
    tran: &TranId,
    flag: Option<Flag>,
) -> Result<(), NoMemory>
    ensures { OnOk result (sights.new.items ≡ sights.old.items ++ spec.asked_sights (map (λ m. m.now) all.now) (map (λ t. t.now) roster.now) place tran.now flag) }
{
    match flag {
        Some(flag) if is_awaited(roster, tran, flag.number, &flag.raiser) => {
            put_flag_sight(sights, place, tran, flag.number, &flag.raiser)
        }
        _ => put_sights_for(alloc, sights, all, roster, place, &None, tran),
    }
}

fn put_others(
    alloc: Global,
    sights: &mut Vec<Sight>,
    all: &[&Marks],
    roster: &[&Tran],
    place: u64,
    name: &Option<Name>,
    others: &[TranId],
) -> Result<(), NoMemory>
    ensures { OnOk result (sights.new.items ≡ sights.old.items ++ flat_map (spec.sights_for (map (λ m. m.now) all.now) (map (λ t. t.now) roster.now) place name.now) others.now) }
{
    for tran in others {
        put_sights_for(alloc, sights, all, roster, place, name, tran)?;
    }
    Ok(())
}

// Adds what each of the transactions in question wants, where the cause of a refusal holds.
fn put_cause(
    alloc: Global,
    sights: &mut Vec<Sight>,
    all: &[&Marks],
    roster: &[&Tran],
    place: u64,
    quest: &Quest,
) -> Result<(), NoMemory>
    ensures { OnOk result (sights.new.items ≡ sights.old.items ++ spec.cause_sights (map (λ m. m.now) all.now) (map (λ t. t.now) roster.now) place quest.now) }
{
    put_sights_for(alloc, sights, all, roster, place, &quest.name, &quest.tran)?;
    let others = quest.others.as_slice();
    put_others(alloc, sights, all, roster, place, &quest.name, others)
}

/// What is seen behind an event, in which the transaction has asked for something or not.
pub fn look_behind(
    alloc: Global,
    all: &[&Marks],
    roster: &[&Tran],
    place: u64,
    quest: &Quest,
    has_asked: bool,
    flag: Option<Flag>,
) -> Result<Vec<Sight>, NoMemory>
    ensures { IfOk result (λ sights. sights.items ≡ spec.seen_behind (map (λ m. m.now) all.now) (map (λ t. t.now) roster.now) place quest.now has_asked flag) }
{
    let mut sights = Vec::new(alloc);
    if place == quest.cause {
        put_cause(alloc, &mut sights, all, roster, place, quest)?;
    } else if has_asked {
        put_asked(alloc, &mut sights, all, roster, place, &quest.tran, flag)?;
    }
    Ok(sights)
}

fn fails(member: u64, cause: u64, event: &EventLine) -> bool
    ensures { result ≡ spec.fails member cause event.now }
{
    event.member as u64 == member
        && event.command.as_slice() == b"fail".as_slice()
        && event.place < cause
}

fn failed_with(
    alloc: Global,
    all: &[&Marks],
    quest: &Quest,
    event: &EventLine,
    member: MemberId,
    name: &Name,
) -> Result<Vec<Sight>, NoMemory>
    ensures { IfOk result (λ sights. sights.items ≡ spec.failed_with (map (λ m. m.now) all.now) quest.now.tran quest.now.cause event.now (Some member) (Some name.now)) }
{
    if !fails(member.number(), quest.cause, event) {
        return Ok(Vec::new(alloc));
    }
    let marks = marks_at(all, member.number());
    failure_sights(alloc, event.place, &quest.tran, member, name, marks)
}

/// What is seen before an event: what a member that is about to fail has of the lock in question.
pub fn look_at_failure(
    alloc: Global,
    all: &[&Marks],
    quest: &Quest,
    event: &EventLine,
) -> Result<Vec<Sight>, NoMemory>
    ensures { IfOk result (λ sights. sights.items ≡ spec.seen_before (map (λ m. m.now) all.now) quest.now event.now) }
{
    match (quest.retainer, quest.name) {
        (Some(member), Some(name)) => failed_with(alloc, all, quest, event, member, &name),
        _ => Ok(Vec::new(alloc)),
    }
}
