//! What stories are told from.

ghost use Rattle.std.specs.Prelude.{◌≡◌, ◌++◌, is_some, OnOk};
ghost use Rattle.run_story.specs.Facts as facts;
ghost use Rattle.run_story.specs.Names.{has_name, is_named, number_named};
ghost use Rattle.run_story.specs.Stories as spec;

use ds_base::{Bytes, NoMemory};
use ds_model::{Report, ReportEntry};
use run_spans::{At, Span, Spans};
use std::alloc::Global;

/// What was read of a report's trace: its transactions and waits, and for each transaction of the report the number of its own.
#[derive(Drop)]
pub struct Known {
    pub read: Spans,
    pub numbers: Vec<Option<usize>>,
}

/// Adds a text and the digits of a number.
#[tactic(auto, unfolding(crate::specs::Stories::counted))]
pub fn put_number(alloc: Global, out: &mut Bytes, text: &[u8], number: u64) -> Result<(), NoMemory>
    ensures { OnOk result (out.new ≡ out.old ++ spec.counted text.now number) }
{
    out.extend(text)?;
    out.extend_number(alloc, number)
}

fn is_named(name: &[u8], entry: &ReportEntry) -> bool
    ensures { result ≡ is_named name.now entry.now }
{
    entry.name.as_slice() == name
}

/// The number of the transaction of this name.
#[tactic(auto, unfolding(crate::specs::Names::number_named))]
pub fn number_named(entries: &[ReportEntry], name: &[u8]) -> Option<usize>
    ensures exact { result ≡ number_named name.now entries.now }
    ensures found { is_some result ≡ has_name name.now entries.now }
{
    let mut number: usize = 0;
    for entry in entries {
        if is_named(name, entry) {
            return Some(number);
        }
        number += 1;
    }
    None
}

/// The number of the span of a transaction.
pub fn number_of_span(known: &Known, number: usize) -> Option<usize>
    ensures { result ≡ facts.number_of_span (facts.facts_of known.now) number }
{
    match known.numbers.get(number) {
        Some(span) => *span,
        None => None,
    }
}

fn span_at(spans: &[Span], number: Option<usize>) -> Option<Span>
    ensures { result ≡ facts.span_at spans.now number }
{
    match number {
        Some(number) => spans.get(number).copied(),
        None => None,
    }
}

/// The span of a transaction.
#[tactic(auto, unfolding(crate::specs::Facts::span_of))]
pub fn span_of(known: &Known, number: usize) -> Option<Span>
    ensures { result ≡ facts.span_of (facts.facts_of known.now) number }
{
    span_at(&known.read.spans, number_of_span(known, number))
}

/// Whether an event is one of a span's.
pub fn is_of(span: &Span, at: &At) -> bool
    ensures { result ≡ facts.is_of span.now at.now }
{
    span.member == at.member
        && span.choice == at.choice
        && span.first <= at.place
        && at.place <= span.last
}

#[tactic(auto, unfolding(crate::specs::Facts::owns))]
fn owns(spans: &[Span], at: &At, number: Option<usize>) -> bool
    ensures { result ≡ facts.owns spans.now at.now number }
{
    match span_at(spans, number) {
        Some(span) => is_of(&span, at),
        None => false,
    }
}

// The number of the transaction whose event this is.
#[tactic(auto, unfolding(crate::specs::Facts::owner_of))]
fn owner_of(known: &Known, at: &At) -> Option<usize>
    ensures { result ≡ facts.owner_of (facts.facts_of known.now) at.now }
{
    let spans = known.read.spans.as_slice();
    known
        .numbers
        .iter()
        .position(|number| owns(spans, at, *number))
}

fn put_member(alloc: Global, out: &mut Bytes, at: &At) -> Result<(), NoMemory>
    ensures { OnOk result (out.new ≡ out.old ++ spec.member_words at.now) }
{
    put_number(alloc, out, b"member ", u64::from(at.member))
}

/// Adds the name of the transaction whose event this is, or its member.
#[tactic(auto, unfolding(crate::specs::Stories::owner_text))]
pub fn put_owner(
    alloc: Global,
    out: &mut Bytes,
    report: &Report,
    known: &Known,
    at: &At,
) -> Result<(), NoMemory>
    ensures { OnOk result (out.new ≡ out.old ++ spec.owner_text report.now (facts.facts_of known.now) at.now) }
{
    let Some(number) = owner_of(known, at) else {
        return put_member(alloc, out, at);
    };
    match report.entries.as_slice().get(number) {
        Some(entry) => out.extend(entry.name.as_slice()),
        None => put_member(alloc, out, at),
    }
}
