//! The lines of a transaction's waits.

ghost use Rattle.std.specs.Prelude.{◌≡◌, ◌++◌, OnOk};
ghost use Rattle.std.specs.List.{flat_map};
ghost use Rattle.run_story.specs.Facts as facts;
ghost use Rattle.run_story.specs.Stories as spec;

use crate::known::{Known, put_number, put_owner};
use ds_base::{Bytes, NoMemory};
use ds_model::{EventLine, Report};
use run_spans::{At, Deed, Span, Wait, deed_of};
use std::alloc::Global;

// What let others go on.
fn rung_words(deed: Deed) -> &'static [u8]
    ensures { result.now ≡ spec.rung_words deed }
{
    match deed {
        Deed::End => b", which was over",
        Deed::Raise => b", which raised a flag",
        Deed::Fail => b", which failed",
        Deed::Release => b", which gave up a lock",
        _ => b"",
    }
}

// Adds what it was that came last, where the event of this place says so.
#[tactic(auto, unfolding(crate::specs::Stories::deed_text))]
fn put_deed(out: &mut Bytes, events: &[EventLine], place: u64) -> Result<(), NoMemory>
    ensures { OnOk result (out.new ≡ out.old ++ spec.deed_text events.now place) }
{
    match events.get(place.saturating_sub(1) as usize) {
        Some(event) if event.place == place => out.extend(rung_words(deed_of(event))),
        _ => Ok(()),
    }
}

#[tactic(auto, unfolding(crate::specs::Stories::owned_text))]
fn put_owned(
    alloc: Global,
    out: &mut Bytes,
    report: &Report,
    known: &Known,
    rung: &At,
) -> Result<(), NoMemory>
    ensures { OnOk result (out.new ≡ out.old ++ spec.owned_text report.now (facts.facts_of known.now) rung.now) }
{
    out.extend(b" of ")?;
    put_owner(alloc, out, report, known, rung)
}

#[tactic(auto, unfolding(crate::specs::Stories::behind_text))]
fn put_behind(alloc: Global, out: &mut Bytes, place: u64) -> Result<(), NoMemory>
    ensures { OnOk result (out.new ≡ out.old ++ spec.behind_text place) }
{
    put_number(alloc, out, b", behind event ", place)
}

// Adds whose event it was that came last, and what it was.
#[tactic(auto, unfolding(crate::specs::Stories::rung_text))]
fn put_rung(
    alloc: Global,
    out: &mut Bytes,
    report: &Report,
    known: &Known,
    rung: &At,
) -> Result<(), NoMemory>
    ensures { OnOk result (out.new ≡ out.old ++ spec.rung_text report.now (facts.facts_of known.now) rung.now) }
{
    let events = report.trace.events.as_slice();
    put_behind(alloc, out, rung.place)?;
    put_owned(alloc, out, report, known, rung)?;
    put_deed(out, events, rung.place)
}

#[tactic(auto, unfolding(crate::specs::Stories::rung_if))]
fn put_rung_if(
    alloc: Global,
    out: &mut Bytes,
    report: &Report,
    known: &Known,
    wait: &Wait,
) -> Result<(), NoMemory>
    ensures { OnOk result (out.new ≡ out.old ++ spec.rung_if report.now (facts.facts_of known.now) wait.now) }
{
    if wait.from < wait.rung.place {
        put_rung(alloc, out, report, known, &wait.rung)
    } else {
        Ok(())
    }
}

#[tactic(auto, unfolding(crate::specs::Stories::waiting_words))]
fn waiting_words() -> &'static [u8]
    ensures { result.now ≡ spec.waiting_words }
{
    b"it waited from event "
}

#[tactic(auto, unfolding(crate::specs::Stories::wait_opening))]
fn put_wait_opening(alloc: Global, out: &mut Bytes, wait: &Wait) -> Result<(), NoMemory>
    ensures { OnOk result (out.new ≡ out.old ++ spec.wait_opening wait.now) }
{
    put_number(alloc, out, waiting_words(), wait.from)?;
    put_number(alloc, out, b" to ", wait.to)
}

// From when to when it waited, and what came last before the end.
#[tactic(auto, unfolding(crate::specs::Stories::wait_text))]
fn put_wait(
    alloc: Global,
    out: &mut Bytes,
    report: &Report,
    known: &Known,
    wait: &Wait,
) -> Result<(), NoMemory>
    ensures { OnOk result (out.new ≡ out.old ++ spec.wait_text report.now (facts.facts_of known.now) wait.now) }
{
    put_wait_opening(alloc, out, wait)?;
    put_rung_if(alloc, out, report, known, wait)?;
    out.extend(b"\n")
}

fn put_own_waits(
    alloc: Global,
    out: &mut Bytes,
    report: &Report,
    known: &Known,
    number: usize,
) -> Result<(), NoMemory>
    ensures { OnOk result (out.new ≡ out.old ++ flat_map (spec.wait_if report.now (facts.facts_of known.now) number) known.now.read.waits.items) }
{
    for wait in &known.read.waits {
        if wait.span == number {
            put_wait(alloc, out, report, known, wait)?;
        }
    }
    Ok(())
}

#[tactic(auto, unfolding(crate::specs::Stories::on_words))]
fn on_words() -> &'static [u8]
    ensures { result.now ≡ spec.on_words }
{
    b" on\n"
}

#[tactic(auto, unfolding(crate::specs::Stories::still_text))]
fn put_still(alloc: Global, out: &mut Bytes, place: u64) -> Result<(), NoMemory>
    ensures { OnOk result (out.new ≡ out.old ++ spec.still_text place) }
{
    put_number(alloc, out, b"it waits from event ", place)?;
    out.extend(on_words())
}

// The wait that the trace leaves open.
fn put_open(alloc: Global, out: &mut Bytes, span: &Span) -> Result<(), NoMemory>
    ensures { OnOk result (out.new ≡ out.old ++ spec.open_text span.now) }
{
    if span.waits_from == 0 {
        Ok(())
    } else {
        put_still(alloc, out, span.waits_from)
    }
}

/// Adds the waits of the transaction of a span, and the one that the trace leaves open.
#[tactic(auto, unfolding(crate::specs::Stories::waits_text))]
pub fn put_waits(
    alloc: Global,
    out: &mut Bytes,
    report: &Report,
    known: &Known,
    number: usize,
    span: &Span,
) -> Result<(), NoMemory>
    ensures { OnOk result (out.new ≡ out.old ++ spec.waits_text report.now (facts.facts_of known.now) number span.now) }
{
    put_own_waits(alloc, out, report, known, number)?;
    put_open(alloc, out, span)
}
