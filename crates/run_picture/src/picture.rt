//! The picture of a report with its trace.

ghost use Rattle.std.specs.Prelude.{◌≡◌, ◌+◌, true, length, map, vec_len, IfOk};
ghost use Rattle.std.specs.List.{flat_map, fold};
ghost use Rattle.run_spans.specs.Places.{place_in};
ghost use Rattle.run_spans.specs.Reaches.{IsRead};
ghost use Rattle.run_spans.specs.Runs.{known_by};
ghost use Rattle.run_picture.specs.Matches.{matched};
ghost use Rattle.run_picture.specs.Places.{is_whole, members_in, pixels_of, scale_of, with_event};
ghost use Rattle.run_picture.specs.Reaching.{failed_by, failures_in};
ghost use Rattle.run_picture.specs.Seen.{IsSeen, reaches_in};

use crate::bars::{Reach, bars_of, reaches_of, rows_by_span, rows_of};
use crate::causes::causes_of;
use crate::cut::Cut;
use crate::events::strokes_of;
use crate::lane::Lane;
use crate::lanes::{height_of, make_lanes};
use crate::lines::{pages_of, waits_of};
use crate::marks::{lanes_of, marks_of};
use crate::matching::match_spans;
use crate::rows::Rows;
use crate::scale::Scale;
use ds_base::NoMemory;
use ds_model::{EventLine, Report, ReportEntry};
use picture_text::Picture;
use run_spans::{MemberPlaces, Spans, deed_of, read_spans};
use std::alloc::Global;

fn scale_of(cut: &Cut, events: u64) -> Scale
    ensures { result ≡ scale_of cut.now events }
{
    let from = cut.from.unwrap_or(1);
    let to = cut.to.unwrap_or(events).min(events);
    Scale {
        from,
        count: to.saturating_sub(from).saturating_add(1),
        is_whole: cut.from.is_none() && cut.to.is_none(),
    }
}

fn members_in_events(events: &[EventLine]) -> u8
    ensures { result ≡ fold with_event 0 events.now }
{
    let mut members: u8 = 0;
    for event in events {
        members = members.max(event.member);
    }
    members
}

// The greatest number of a member that has an event or a transaction.
#[tactic(auto, unfolding(crate::specs::Places::members_in))]
fn members_in(entries: &[ReportEntry], events: &[EventLine]) -> u8
    ensures { result ≡ members_in entries.now events.now }
{
    let mut members = members_in_events(events);
    for entry in entries {
        members = members.max(entry.member.number() as u8);
    }
    members
}

fn note_failure(failed: &mut MemberPlaces, event: &EventLine)
    ensures { place_in failed.new ≡ failed_by (place_in failed.old) event.now }
{
    if deed_of(event).is_fail() {
        failed.put(event.member, event.place);
    }
}

// For each member the place where it failed last.
#[tactic(auto, unfolding(crate::specs::Reaching::failures_in))]
fn failures_of(alloc: Global, events: &[EventLine]) -> Result<MemberPlaces, NoMemory>
    ensures { IfOk result (λ failed. place_in failed ≡ failures_in events.now) }
{
    let mut failed = MemberPlaces::new(alloc)?;
    for event in events {
        note_failure(&mut failed, event);
    }
    Ok(failed)
}

// What a picture is drawn from, beside the report.
#[derive(Drop)]
struct Layout {
    scale: Scale,
    lanes: Vec<Lane>,
    reaches: Vec<Reach>,
    // by the numbers of entries, and by those of spans
    rows: Vec<u64>,
    span_rows: Vec<u64>,
}

#[tactic(auto, unfolding(crate::specs::Reaching::reaches_of))]
fn reaches_in(
    alloc: Global,
    report: &Report,
    read: &Spans,
    numbers: &[Option<usize>],
) -> Result<Vec<Reach>, NoMemory>
    requires read { IsRead read.now (known_by report.now.trace.events) }
    requires numbers { numbers.now ≡ matched read.now.spans.items read.now.commits.items report.now.trace.causes report.now.entries }
    requires count { length numbers.now ≡ length report.now.entries }
    ensures exact { IfOk result (λ reaches. reaches.items ≡ reaches_in report.now) }
    ensures count { IfOk result (λ reaches. vec_len reaches ≡ length report.now.entries) }
{
    let failed = failures_of(alloc, report.trace.events.as_slice())?;
    reaches_of(
        alloc,
        &read.spans,
        &failed,
        report.entries.as_slice(),
        numbers,
    )
}

fn layout_of(alloc: Global, report: &Report, scale: Scale, read: &Spans) -> Result<Layout, NoMemory>
    requires { IsRead read.now (known_by report.now.trace.events) }
    ensures scale { IfOk result (λ layout. layout.scale ≡ scale) }
    ensures reaches { IfOk result (λ layout. layout.reaches.items ≡ reaches_in report.now) }
    ensures count { IfOk result (λ layout. vec_len layout.reaches ≡ length report.now.entries) }
    ensures lanes { IfOk result (λ layout. vec_len layout.lanes ≡ members_in report.now.entries report.now.trace.events + 1) }
{
    let entries = report.entries.as_slice();
    let events = report.trace.events.as_slice();
    let numbers = match_spans(alloc, entries, report.trace.causes.as_slice(), read)?;
    let reaches = reaches_in(alloc, report, read, &numbers)?;
    let spans = read.spans.len();
    let mut taken = Rows::new(alloc)?;
    let rows = rows_of(
        alloc, &mut taken, &scale, entries, &reaches, &numbers, spans,
    )?;
    Ok(Layout {
        scale,
        lanes: make_lanes(alloc, &taken, members_in(entries, events))?,
        reaches,
        span_rows: rows_by_span(alloc, &rows, &numbers, spans)?,
        rows,
    })
}

fn drawn(alloc: Global, report: &Report, read: &Spans, layout: &Layout) -> Result<Picture, NoMemory>
    requires read { IsRead read.now (known_by report.now.trace.events) }
    requires reaches { layout.now.reaches.items ≡ reaches_in report.now }
    requires count { vec_len layout.now.reaches ≡ length report.now.entries }
    ensures bars { IfOk result (λ p. layout.now.scale.is_whole ≡ true → map (λ b. b.label) p.bars ≡ map (λ e. e.name) report.now.entries) }
    ensures events { IfOk result (λ p. map (λ s. s.from.across) p.events ≡ flat_map (pixels_of layout.now.scale) report.now.trace.events) }
    ensures lanes { IfOk result (λ p. length p.lanes ≡ vec_len layout.now.lanes) }
    ensures seen { IfOk result (IsSeen layout.now.scale report.now) }
{
    let entries = report.entries.as_slice();
    let events = report.trace.events.as_slice();
    let causes = report.trace.causes.as_slice();
    let scale = &layout.scale;
    let lanes = layout.lanes.as_slice();
    Ok(Picture {
        height: height_of(lanes),
        lanes: lanes_of(alloc, lanes)?,
        phases: marks_of(alloc, scale, lanes, events, true)?,
        bars: bars_of(alloc, scale, lanes, entries, &layout.reaches, &layout.rows)?,
        waits: waits_of(alloc, scale, lanes, &read.waits, &layout.span_rows)?,
        events: strokes_of(alloc, scale, lanes, events)?,
        pages: pages_of(alloc, scale, lanes, &read.pages)?,
        marks: marks_of(alloc, scale, lanes, events, false)?,
        causes: causes_of(alloc, scale, lanes, entries, causes, &layout.rows)?,
    })
}

/// The picture of a report with its trace, or of those events of it that are asked for.
pub fn picture_of(alloc: Global, report: &Report, cut: &Cut) -> Result<Picture, NoMemory>
    ensures bars { IfOk result (λ p. is_whole cut.now ≡ true → map (λ b. b.label) p.bars ≡ map (λ e. e.name) report.now.entries) }
    ensures events { IfOk result (λ p. map (λ s. s.from.across) p.events ≡ flat_map (pixels_of (scale_of cut.now (length report.now.trace.events))) report.now.trace.events) }
    ensures lanes { IfOk result (λ p. length p.lanes ≡ members_in report.now.entries report.now.trace.events + 1) }
    ensures seen { IfOk result (IsSeen (scale_of cut.now (length report.now.trace.events)) report.now) }
{
    let events = report.trace.events.as_slice();
    let read = read_spans(alloc, events)?;
    let scale = scale_of(cut, events.len() as u64);
    let layout = layout_of(alloc, report, scale, &read)?;
    drawn(alloc, report, &read, &layout)
}
