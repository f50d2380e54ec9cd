//! The story of one transaction.

ghost use Rattle.std.specs.Prelude.{◌≡◌, ◌++◌, is_some, IfOk, OnOk};
ghost use Rattle.run_story.specs.Facts.{facts_of, facts_in};
ghost use Rattle.run_story.specs.Names.{has_name, number_named as named_in};
ghost use Rattle.run_story.specs.Stories as spec;

use crate::course::{Places, put_course, stable_place};
use crate::known::{Known, number_named, number_of_span, span_of};
use crate::named::{put_named, put_who};
use crate::waits::put_waits;
use ds_base::{Bytes, NoMemory};
use ds_model::{Report, ReportEntry, Told};
use run_picture::{match_spans, place_of_cause, put_fate};
use run_spans::{Span, read_spans};
use std::alloc::Global;

// Adds the course and the waits of a transaction that began.
fn put_begun(
    alloc: Global,
    out: &mut Bytes,
    report: &Report,
    known: &Known,
    told: &Told,
    cause: u64,
    number: usize,
    span: &Span,
) -> Result<(), NoMemory>
    ensures { OnOk result (out.new ≡ out.old ++ spec.begun_course report.now (facts_of known.now) told.now cause number span.now) }
{
    let events = report.trace.events.as_slice();
    let places = Places {
        cause,
        stable: stable_place(events, span),
    };
    put_course(alloc, out, events, told, span, &places)?;
    put_waits(alloc, out, report, known, number, span)
}

#[tactic(auto, unfolding(crate::specs::Stories::course_text))]
fn put_course_of(
    alloc: Global,
    out: &mut Bytes,
    report: &Report,
    known: &Known,
    own: usize,
    told: &Told,
    cause: u64,
) -> Result<(), NoMemory>
    ensures { OnOk result (out.new ≡ out.old ++ spec.course_text report.now (facts_of known.now) own told.now cause) }
{
    match (span_of(known, own), number_of_span(known, own)) {
        (Some(span), Some(number)) => {
            put_begun(alloc, out, report, known, told, cause, number, &span)
        }
        _ => Ok(()),
    }
}

fn put_refusal(
    alloc: Global,
    out: &mut Bytes,
    report: &Report,
    known: &Known,
    own: usize,
    cause: u64,
    told: &Told,
) -> Result<(), NoMemory>
    ensures { OnOk result (out.new ≡ out.old ++ spec.refused_named report.now (facts_of known.now) own cause told.now) }
{
    match told {
        Told::Refused(refusal) => put_named(alloc, out, report, known, own, cause, refusal),
        _ => Ok(()),
    }
}

#[tactic(auto, unfolding(crate::specs::Stories::story_text))]
fn put_story(
    alloc: Global,
    out: &mut Bytes,
    report: &Report,
    known: &Known,
    own: usize,
    entry: &ReportEntry,
    cause: u64,
) -> Result<(), NoMemory>
    ensures { OnOk result (out.new ≡ out.old ++ spec.story_text report.now (facts_of known.now) own entry.now cause) }
{
    put_fate(alloc, out, entry)?;
    put_who(alloc, out, report, known, own)?;
    out.extend(b"\n")?;
    put_refusal(alloc, out, report, known, own, cause, &entry.told)?;
    put_course_of(alloc, out, report, known, own, &entry.told, cause)
}

#[tactic(auto, unfolding(crate::specs::Facts::facts_in))]
fn know(alloc: Global, report: &Report) -> Result<Known, NoMemory>
    ensures { IfOk result (λ known. facts_of known ≡ facts_in report.now) }
{
    let causes = report.trace.causes.as_slice();
    let read = read_spans(alloc, report.trace.events.as_slice())?;
    let numbers = match_spans(alloc, report.entries.as_slice(), causes, &read)?;
    Ok(Known { read, numbers })
}

#[tactic(auto, unfolding(crate::specs::Stories::story_in))]
fn tell(alloc: Global, report: &Report, own: usize) -> Result<Bytes, NoMemory>
    ensures { IfOk result (λ text. text ≡ spec.story_in report.now own) }
{
    let mut out = Bytes::new(alloc);
    let Some(entry) = report.entries.as_slice().get(own) else {
        return Ok(out);
    };
    let known = know(alloc, report)?;
    let cause = place_of_cause(report.trace.causes.as_slice(), &entry.name);
    put_story(alloc, &mut out, report, &known, own, entry, cause)?;
    Ok(out)
}

/// What a report with its trace tells of the transaction of this name: its line of the report, from which event to which it went on,
/// those that a refusal names, its events that matter, and its waits. `None` where the report has no such transaction.
pub fn story_of(alloc: Global, report: &Report, name: &[u8]) -> Result<Option<Bytes>, NoMemory>
    ensures found { IfOk result (λ story. is_some story ≡ has_name name.now report.now.entries) }
    ensures exact { IfOk result (λ story. story ≡ spec.story_named report.now (named_in name.now report.now.entries)) }
{
    match number_named(report.entries.as_slice(), name) {
        Some(own) => Ok(Some(tell(alloc, report, own)?)),
        None => Ok(None),
    }
}
