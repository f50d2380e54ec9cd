//! The lines of those that a refusal names.

ghost use Rattle.std.specs.Prelude.{◌≡◌, ◌++◌, Some, OnOk};
ghost use Rattle.std.specs.List.{flat_map};
ghost use Rattle.run_story.specs.Facts as facts;
ghost use Rattle.run_story.specs.Stories as spec;

use crate::known::{Known, number_named, number_of_span, put_number, span_of};
use ds_base::{Bytes, NoMemory};
use ds_model::{EventLine, Report, ReportEntry, Told, ToldRefusal};
use run_spans::{Span, Wait, deed_of};
use std::alloc::Global;

// Adds from when to when a transaction went on.
fn put_reach(alloc: Global, out: &mut Bytes, span: Option<Span>) -> Result<(), NoMemory>
    ensures { OnOk result (out.new ≡ out.old ++ spec.reach_text span) }
{
    match span {
        Some(span) => {
            put_number(alloc, out, b" from event ", span.first)?;
            put_number(alloc, out, b" to ", span.last)
        }
        None => out.extend(b" never began"),
    }
}

#[tactic(auto, unfolding(crate::specs::Stories::entry_text))]
fn put_entry(
    alloc: Global,
    out: &mut Bytes,
    entry: &ReportEntry,
    span: Option<Span>,
) -> Result<(), NoMemory>
    ensures { OnOk result (out.new ≡ out.old ++ spec.entry_text entry.now span) }
{
    out.extend(entry.name.as_slice())?;
    put_number(alloc, out, b" of member ", entry.member.number())?;
    put_reach(alloc, out, span)
}

/// Adds the name of a transaction, its member, and from when to when it went on.
#[tactic(auto, unfolding(crate::specs::Stories::who_text))]
pub fn put_who(
    alloc: Global,
    out: &mut Bytes,
    report: &Report,
    known: &Known,
    number: usize,
) -> Result<(), NoMemory>
    ensures { OnOk result (out.new ≡ out.old ++ spec.who_text report.now (facts.facts_of known.now) number) }
{
    match report.entries.as_slice().get(number) {
        Some(entry) => put_entry(alloc, out, entry, span_of(known, number)),
        None => Ok(()),
    }
}

// How another transaction came to its end.
fn fate_words(told: &Told) -> &'static [u8]
    ensures { result.now ≡ spec.fate_words told.now }
{
    match told {
        Told::Committed { answered: true, .. } => b", committed\n",
        Told::Committed { .. } => b", committed, its answer lost\n",
        Told::Refused(_) => b", refused\n",
        Told::Stopped => b", stopped\n",
    }
}

// Adds the line of another transaction.
#[tactic(auto, unfolding(crate::specs::Stories::other_text))]
fn put_other(
    alloc: Global,
    out: &mut Bytes,
    report: &Report,
    known: &Known,
    number: usize,
) -> Result<(), NoMemory>
    ensures { OnOk result (out.new ≡ out.old ++ spec.other_text report.now (facts.facts_of known.now) number) }
{
    let Some(entry) = report.entries.as_slice().get(number) else {
        return Ok(());
    };
    put_who(alloc, out, report, known, number)?;
    out.extend(fate_words(&entry.told))
}

#[tactic(auto, unfolding(crate::specs::Stories::other_named))]
fn put_other_named(
    alloc: Global,
    out: &mut Bytes,
    report: &Report,
    known: &Known,
    name: &Bytes,
) -> Result<(), NoMemory>
    ensures { OnOk result (out.new ≡ out.old ++ spec.other_named report.now (facts.facts_of known.now) name.now) }
{
    match number_named(report.entries.as_slice(), name.as_slice()) {
        Some(number) => put_other(alloc, out, report, known, number),
        None => Ok(()),
    }
}

// Adds the line of each transaction of these names.
fn put_others(
    alloc: Global,
    out: &mut Bytes,
    report: &Report,
    known: &Known,
    names: &[Bytes],
) -> Result<(), NoMemory>
    ensures { OnOk result (out.new ≡ out.old ++ flat_map (spec.other_named report.now (facts.facts_of known.now)) names.now) }
{
    for name in names {
        put_other_named(alloc, out, report, known, name)?;
    }
    Ok(())
}

fn is_at(number: usize, place: u64, wait: &Wait) -> bool
    ensures { result ≡ facts.is_at number place wait.now }
{
    wait.span == number && wait.from <= place && place <= wait.to
}

fn first_wait(known: &Known, number: usize, place: u64) -> Option<u64>
    ensures { result ≡ facts.since_by (facts.facts_of known.now) (Some number) place }
{
    known
        .read
        .waits
        .iter()
        .find(|wait| is_at(number, place, wait))
        .map(|wait| wait.from)
}

// Since when the transaction of a name has waited, where it does at a place.
#[tactic(auto, unfolding(crate::specs::Facts::waits_since))]
fn waits_since(report: &Report, known: &Known, name: &[u8], place: u64) -> Option<u64>
    ensures { result ≡ facts.waits_since report.now (facts.facts_of known.now) name.now place }
{
    let number = number_named(report.entries.as_slice(), name)?;
    let span = number_of_span(known, number)?;
    first_wait(known, span, place)
}

#[tactic(auto, unfolding(crate::specs::Stories::since_text))]
fn put_since(alloc: Global, out: &mut Bytes, since: Option<u64>) -> Result<(), NoMemory>
    ensures { OnOk result (out.new ≡ out.old ++ spec.since_text since) }
{
    match since {
        Some(since) => put_number(alloc, out, b", since event ", since),
        None => Ok(()),
    }
}

#[tactic(auto, unfolding(crate::specs::Stories::waited_words))]
fn waited_words() -> &'static [u8]
    ensures { result.now ≡ spec.waited_words }
{
    b" waited for "
}

#[tactic(auto, unfolding(crate::specs::Stories::pair_opening))]
fn put_pair_opening(out: &mut Bytes, one: &Bytes, next: &Bytes) -> Result<(), NoMemory>
    ensures { OnOk result (out.new ≡ out.old ++ spec.pair_opening one.now next.now) }
{
    out.extend(one.as_slice())?;
    out.extend(waited_words())?;
    out.extend(next.as_slice())
}

// Adds that one waited for the next.
#[tactic(auto, unfolding(crate::specs::Stories::pair_text))]
fn put_pair(
    alloc: Global,
    out: &mut Bytes,
    report: &Report,
    known: &Known,
    place: u64,
    one: &Bytes,
    next: &Bytes,
) -> Result<(), NoMemory>
    ensures { OnOk result (out.new ≡ out.old ++ spec.pair_text report.now (facts.facts_of known.now) place one.now next.now) }
{
    put_pair_opening(out, one, next)?;
    put_since(
        alloc,
        out,
        waits_since(report, known, one.as_slice(), place),
    )?;
    out.extend(b"\n")
}

// Adds who waited for whom in a cycle: each for the next, and the last for the first.
#[tactic(auto, unfolding(crate::specs::Stories::cycle_text))]
fn put_cycle(
    alloc: Global,
    out: &mut Bytes,
    report: &Report,
    known: &Known,
    place: u64,
    first: &Bytes,
    others: &[Bytes],
) -> Result<(), NoMemory>
    ensures { OnOk result (out.new ≡ out.old ++ spec.cycle_text report.now (facts.facts_of known.now) place first.now first.now others.now) }
{
    let mut one = first;
    for next in others {
        put_pair(alloc, out, report, known, place, one, next)?;
        one = next;
    }
    put_pair(alloc, out, report, known, place, one, first)
}

fn is_up(event: &EventLine) -> bool
    ensures { result ≡ facts.is_up event.now }
{
    event.command.as_slice() == b"set-status".as_slice()
        && event.reply.as_slice() == b"done".as_slice()
}

fn is_up_behind(member: u64, place: u64, event: &EventLine) -> bool
    ensures { result ≡ facts.is_up_behind member place event.now }
{
    u64::from(event.member) == member && place < event.place && is_up(event)
}

fn is_failure_of(member: u64, place: u64, event: &EventLine) -> bool
    ensures { result ≡ facts.is_failure_of member place event.now }
{
    u64::from(event.member) == member && event.place <= place && deed_of(event).is_fail()
}

// The last failure of a member up to a place, 0 where there is none.
#[tactic(auto, unfolding(crate::specs::Facts::failure_before))]
fn failure_before(events: &[EventLine], member: u64, place: u64) -> u64
    ensures { result ≡ facts.failure_before events.now member place }
{
    let mut failure = 0;
    for event in events {
        if is_failure_of(member, place, event) {
            failure = event.place;
        }
    }
    failure
}

fn first_up(events: &[EventLine], member: u64, place: u64) -> Option<u64>
    ensures { result ≡ facts.first_place (facts.is_up_behind member place) events.now }
{
    events
        .iter()
        .find(|event| is_up_behind(member, place, event))
        .map(|event| event.place)
}

// Where a member was up again behind a place, 0 where it wasn't.
#[tactic(auto, unfolding(crate::specs::Facts::up_behind))]
fn up_behind(events: &[EventLine], member: u64, place: u64) -> u64
    ensures { result ≡ facts.up_behind events.now member place }
{
    first_up(events, member, place).unwrap_or(0)
}

#[tactic(auto, unfolding(crate::specs::Stories::failure_words))]
fn put_failure(alloc: Global, out: &mut Bytes, failure: u64) -> Result<(), NoMemory>
    ensures { OnOk result (out.new ≡ out.old ++ spec.failure_words failure) }
{
    if failure > 0 {
        put_number(alloc, out, b" had failed at event ", failure)
    } else {
        out.extend(b" had failed before the first event")
    }
}

#[tactic(auto, unfolding(crate::specs::Stories::up_words))]
fn put_up(alloc: Global, out: &mut Bytes, up: u64) -> Result<(), NoMemory>
    ensures { OnOk result (out.new ≡ out.old ++ spec.up_words up) }
{
    if up > 0 {
        put_number(alloc, out, b", and was up again at event ", up)
    } else {
        Ok(())
    }
}

// Adds when a member failed that retained a lock at this place, and when it was up again.
#[tactic(auto, unfolding(crate::specs::Stories::failure_text))]
fn put_retainer(
    alloc: Global,
    out: &mut Bytes,
    report: &Report,
    member: u64,
    place: u64,
) -> Result<(), NoMemory>
    ensures { OnOk result (out.new ≡ out.old ++ spec.failure_text report.now member place) }
{
    let events = report.trace.events.as_slice();
    put_number(alloc, out, b"member ", member)?;
    put_failure(alloc, out, failure_before(events, member, place))?;
    put_up(alloc, out, up_behind(events, member, place))?;
    out.extend(b"\n")
}

fn put_holder(
    alloc: Global,
    out: &mut Bytes,
    report: &Report,
    known: &Known,
    own: usize,
    holder: Option<usize>,
) -> Result<(), NoMemory>
    ensures { OnOk result (out.new ≡ out.old ++ spec.holder_by report.now (facts.facts_of known.now) own holder) }
{
    match holder {
        Some(number) if number != own => put_other(alloc, out, report, known, number),
        _ => Ok(()),
    }
}

fn put_deadlock(
    alloc: Global,
    out: &mut Bytes,
    report: &Report,
    known: &Known,
    place: u64,
    cycle: &[Bytes],
) -> Result<(), NoMemory>
    ensures { OnOk result (out.new ≡ out.old ++ spec.deadlock_text report.now (facts.facts_of known.now) place cycle.now) }
{
    let [first, others @ ..] = cycle else {
        return Ok(());
    };
    put_others(alloc, out, report, known, others)?;
    put_cycle(alloc, out, report, known, place, first, others)
}

/// Adds those that a refusal names, whose cause held at this place: the holder of the lock, the transactions of the cycle and for whom each of
/// them waited, or the member that had failed.
#[tactic(auto, unfolding(crate::specs::Stories::named_text))]
pub fn put_named(
    alloc: Global,
    out: &mut Bytes,
    report: &Report,
    known: &Known,
    own: usize,
    place: u64,
    refusal: &ToldRefusal,
) -> Result<(), NoMemory>
    ensures { OnOk result (out.new ≡ out.old ++ spec.named_text report.now (facts.facts_of known.now) own place refusal.now) }
{
    match refusal {
        ToldRefusal::Held { by, .. } => {
            let holder = number_named(report.entries.as_slice(), by.as_slice());
            put_holder(alloc, out, report, known, own, holder)
        }
        ToldRefusal::Retained { by, .. } => put_retainer(alloc, out, report, by.number(), place),
        ToldRefusal::Deadlock { cycle } => {
            put_deadlock(alloc, out, report, known, place, cycle.as_slice())
        }
        _ => Ok(()),
    }
}
