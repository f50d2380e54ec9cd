//! The lines of a transaction's events.

ghost use Rattle.std.specs.Prelude.{◌≡◌, ◌++◌, OnOk};
ghost use Rattle.std.specs.List.{flat_map};
ghost use Rattle.run_story.specs.Facts as facts;
ghost use Rattle.run_spans.specs.Runs.{at_of};
ghost use Rattle.run_story.specs.Phrases.{text_in};
ghost use Rattle.run_story.specs.Stories as spec;

use crate::known::{is_of, put_number};
use crate::phrases::phrase_of;
use ds_base::{Bytes, NoMemory};
use ds_model::{EventLine, Told, ToldRefusal};
use run_spans::{At, Span, deed_of};
use std::alloc::Global;

/// The places that a transaction's course has beside its own events, 0 where there is none: that of its refusal's cause, and that at which its
/// commit was stable.
#[derive(Clone, Copy)]
pub struct Places {
    pub cause: u64,
    pub stable: u64,
}

fn is_stable(span: &Span, event: &EventLine) -> bool
    ensures { result ≡ facts.is_stable span.now event.now }
{
    event.member == span.member && span.commit < event.place && deed_of(event).is_append()
}

fn first_stable(events: &[EventLine], span: &Span) -> Option<u64>
    ensures { result ≡ facts.first_place (facts.is_stable span.now) events.now }
{
    events
        .iter()
        .find(|event| is_stable(span, event))
        .map(|event| event.place)
}

/// Where the commit of a transaction came into the log of its member, 0 where it didn't.
#[tactic(auto, unfolding(crate::specs::Facts::stable_place))]
pub fn stable_place(events: &[EventLine], span: &Span) -> u64
    ensures { result ≡ facts.stable_place events.now span.now }
{
    if span.commit == 0 {
        0
    } else {
        first_stable(events, span).unwrap_or(0)
    }
}

#[tactic(auto, unfolding(crate::specs::Stories::line_text))]
fn put_line(alloc: Global, out: &mut Bytes, place: u64, phrase: &[u8]) -> Result<(), NoMemory>
    ensures { OnOk result (out.new ≡ out.old ++ spec.line_text place phrase.now) }
{
    put_number(alloc, out, b"at event ", place)?;
    out.extend(b" ")?;
    out.extend(phrase)?;
    out.extend(b"\n")
}

// Adds why a transaction was refused.
#[tactic(auto, unfolding(crate::specs::Stories::why_text))]
fn put_why(alloc: Global, out: &mut Bytes, refusal: &ToldRefusal) -> Result<(), NoMemory>
    ensures { OnOk result (out.new ≡ out.old ++ spec.why_text refusal.now) }
{
    match refusal {
        ToldRefusal::Held { by, .. } => {
            out.extend(by.as_slice())?;
            out.extend(b" holds the lock")
        }
        ToldRefusal::Retained { by, .. } => {
            put_number(alloc, out, b"member ", by.number())?;
            out.extend(b" retains the lock")
        }
        ToldRefusal::Deadlock { .. } => out.extend(b"the cycle is found"),
        ToldRefusal::SpaceFull { .. } => out.extend(b"the table space has no page left"),
        ToldRefusal::RecordsFull { .. } => out.extend(b"the lock structure has no record left"),
        ToldRefusal::LrsnEnd { .. } => out.extend(b"log records have no number left"),
        ToldRefusal::Memory => out.extend(b"memory is wanting"),
        ToldRefusal::Aborted => out.extend(b"it aborts"),
    }
}

#[tactic(auto, unfolding(crate::specs::Stories::refused_words))]
fn refused_words() -> &'static [u8]
    ensures { result.now ≡ spec.refused_words }
{
    b" it is refused: "
}

#[tactic(auto, unfolding(crate::specs::Stories::refusal_opening))]
fn put_refusal_opening(alloc: Global, out: &mut Bytes, place: u64) -> Result<(), NoMemory>
    ensures { OnOk result (out.new ≡ out.old ++ spec.refusal_opening place) }
{
    put_number(alloc, out, b"at event ", place)?;
    out.extend(refused_words())
}

#[tactic(auto, unfolding(crate::specs::Stories::refusal_text))]
fn put_refusal(
    alloc: Global,
    out: &mut Bytes,
    place: u64,
    refusal: &ToldRefusal,
) -> Result<(), NoMemory>
    ensures { OnOk result (out.new ≡ out.old ++ spec.refusal_text place refusal.now) }
{
    put_refusal_opening(alloc, out, place)?;
    put_why(alloc, out, refusal)?;
    out.extend(b"\n")
}

fn put_cause(
    alloc: Global,
    out: &mut Bytes,
    told: &Told,
    cause: u64,
    event: &EventLine,
) -> Result<(), NoMemory>
    ensures { OnOk result (out.new ≡ out.old ++ spec.cause_text cause told.now event.now) }
{
    match told {
        Told::Refused(refusal) if event.place == cause => {
            put_refusal(alloc, out, event.place, refusal)
        }
        _ => Ok(()),
    }
}

fn is_failure(span: &Span, event: &EventLine) -> bool
    ensures { result ≡ facts.is_failure span.now event.now }
{
    event.member == span.member
        && span.first <= event.place
        && event.place <= span.last
        && deed_of(event).is_fail()
}

fn is_own(span: &Span, event: &EventLine) -> bool
    ensures { result ≡ facts.is_of span.now (at_of event.now) }
{
    let at = At {
        place: event.place,
        member: event.member,
        choice: event.choice,
    };
    is_of(span, &at)
}

fn put_begun(alloc: Global, out: &mut Bytes, span: &Span, event: &EventLine) -> Result<(), NoMemory>
    ensures { OnOk result (out.new ≡ out.old ++ spec.begun_text span.now event.now) }
{
    if event.place == span.first {
        put_line(alloc, out, event.place, b"it begins")
    } else {
        Ok(())
    }
}

fn put_phrase(
    alloc: Global,
    out: &mut Bytes,
    is_own: bool,
    place: u64,
    phrase: Option<&[u8]>,
) -> Result<(), NoMemory>
    ensures { OnOk result (out.new ≡ out.old ++ spec.phrase_text is_own place (text_in phrase.entry)) }
{
    match phrase {
        Some(phrase) if is_own => put_line(alloc, out, place, phrase),
        _ => Ok(()),
    }
}

// Adds what an event of its own, or the failure of its member, says of it.
fn put_said(alloc: Global, out: &mut Bytes, span: &Span, event: &EventLine) -> Result<(), NoMemory>
    ensures { OnOk result (out.new ≡ out.old ++ spec.said_text span.now event.now) }
{
    if is_failure(span, event) {
        put_line(alloc, out, event.place, b"its member fails")
    } else {
        put_phrase(
            alloc,
            out,
            is_own(span, event),
            event.place,
            phrase_of(event),
        )
    }
}

fn put_stable(
    alloc: Global,
    out: &mut Bytes,
    stable: u64,
    event: &EventLine,
) -> Result<(), NoMemory>
    ensures { OnOk result (out.new ≡ out.old ++ spec.stable_text stable event.now) }
{
    if event.place == stable {
        put_line(alloc, out, event.place, b"its commit is stable")
    } else {
        Ok(())
    }
}

#[tactic(auto, unfolding(crate::specs::Stories::event_text))]
fn put_event(
    alloc: Global,
    out: &mut Bytes,
    told: &Told,
    span: &Span,
    places: &Places,
    event: &EventLine,
) -> Result<(), NoMemory>
    ensures { OnOk result (out.new ≡ out.old ++ spec.event_text told.now span.now places.now event.now) }
{
    put_begun(alloc, out, span, event)?;
    put_said(alloc, out, span, event)?;
    put_stable(alloc, out, places.stable, event)?;
    put_cause(alloc, out, told, places.cause, event)
}

/// Adds the events of a transaction that matter, in their order, with its refusal and its stable commit among them.
pub fn put_course(
    alloc: Global,
    out: &mut Bytes,
    events: &[EventLine],
    told: &Told,
    span: &Span,
    places: &Places,
) -> Result<(), NoMemory>
    ensures { OnOk result (out.new ≡ out.old ++ flat_map (spec.event_text told.now span.now places.now) events.now) }
{
    for event in events {
        put_event(alloc, out, told, span, places, event)?;
    }
    Ok(())
}
