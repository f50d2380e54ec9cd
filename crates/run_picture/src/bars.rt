//! The bars of transactions.

ghost use Rattle.std.specs.Prelude.{◌≡◌, ◌<◌, ◌++◌, [], ◌∷◌, true, length, map, vec_len, slice_index, slice_index_or, IfOk, OnOk};
ghost use Rattle.std.specs.List.{flat_map, zip};
ghost use Rattle.run_spans.specs.Places.{place_in};
ghost use Rattle.run_picture.specs.Places.{kind_of, lane_of, IsWithin};
ghost use Rattle.run_picture.specs.Reaching as reaching;
ghost use Rattle.run_picture.specs.Seen as spec;

use crate::lane::Lane;
use crate::lanes::{BAR, lane_of, row_of};
use crate::rows::Rows;
use crate::scale::Scale;
use crate::titles::{bar_title, text_of};
use ds_base::NoMemory;
use ds_model::{ReportEntry, Told};
use picture_text::{Kind, Shape, ShapeList, Spot};
use run_spans::{MemberPlaces, Span};
use std::alloc::Global;

/// From which event to which a transaction went on.
#[derive(Clone, Copy, Debug, PartialEq, Eq)]
pub struct Reach {
    pub first: u64,
    pub last: u64,
}

// The room of a letter, and that beside the letters of a name.
const LETTER: u64 = 8;

const MARGIN: u64 = 14;

fn span_at(spans: &[Span], number: Option<usize>) -> Option<Span>
    ensures { result ≡ reaching.span_at spans.now number }
{
    match number {
        Some(number) => spans.get(number).copied(),
        None => None,
    }
}

fn reach_by(span: Option<Span>, place: u64) -> Reach
    ensures { result ≡ reaching.reach_by span place }
{
    match span {
        Some(span) => Reach {
            first: span.first,
            last: span.last,
        },
        None => Reach {
            first: place,
            last: place,
        },
    }
}

#[tactic(auto, unfolding(crate::specs::Reaching::reach_of))]
fn reach_of(
    spans: &[Span],
    failed: &MemberPlaces,
    entry: &ReportEntry,
    number: Option<usize>,
) -> Reach
    ensures { result ≡ reaching.reach_of spans.now (place_in failed.now) (entry.now, number) }
{
    let place = failed.get(entry.member.number() as u8);
    reach_by(span_at(spans, number), place)
}

#[tactic(auto, using(crate::proofs::Zips::read_again))]
fn number_at(numbers: &[Option<usize>], at: usize) -> Option<usize>
    requires { at < length numbers.now }
    ensures { result ≡ slice_index_or numbers.now at result }
{
    numbers[at]
}

#[tactic(auto, using(crate::proofs::Zips::read_again))]
fn reach_at(reaches: &[Reach], at: usize) -> Reach
    requires { at < length reaches.now }
    ensures { result ≡ slice_index_or reaches.now at result }
{
    reaches[at]
}

/// From which event to which each transaction went on, by the numbers of their spans and the place of each member's last failure.
#[tactic(auto, using(crate::proofs::Zips::mapped_more, crate::proofs::Zips::zip_whole))]
pub fn reaches_of(
    alloc: Global,
    spans: &[Span],
    failed: &MemberPlaces,
    entries: &[ReportEntry],
    numbers: &[Option<usize>],
) -> Result<Vec<Reach>, NoMemory>
    requires { length numbers.now ≡ length entries.now }
    ensures exact { IfOk result (λ reaches. reaches.items ≡ map (reaching.reach_of spans.now (place_in failed.now)) (zip entries.now numbers.now)) }
    ensures count { IfOk result (λ reaches. vec_len reaches ≡ length entries.now) }
{
    let mut reaches = Vec::new(alloc);
    for at in 0..entries.len() {
        reaches.push(reach_of(spans, failed, &entries[at], number_at(numbers, at)))?;
    }
    Ok(reaches)
}

// Where a bar ends: where the event behind its last one would stand. It is never too narrow to be seen.
fn end_of(scale: &Scale, reach: Reach) -> u64
    ensures { result ≡ spec.bar_end scale.now reach }
{
    let from = scale.across(reach.first);
    let to = scale.across(reach.last.saturating_add(1));
    to.max(from + 3)
}

// The room that a bar takes with its name.
fn take_room(
    rows: &mut Rows,
    scale: &Scale,
    entry: &ReportEntry,
    reach: Reach,
) -> Result<u64, NoMemory> {
    let from = scale.across(reach.first);
    let to = end_of(scale, reach);
    let letters = (entry.name.len() as u64).saturating_mul(LETTER);
    let named = from.saturating_add(letters).saturating_add(MARGIN);
    let member = entry.member.number() as u8;
    let row = rows.take_room(member, from, to.saturating_add(3).max(named))?;
    Ok(row as u64)
}

fn give_row(
    given: &mut [u64],
    rows: &mut Rows,
    scale: &Scale,
    entry: &ReportEntry,
    reach: Reach,
    at: usize,
) -> Result<(), NoMemory>
    ensures { length given.new ≡ length given.old }
{
    if at < given.len() && scale.meets(reach.first, reach.last) {
        given[at] = take_room(rows, scale, entry, reach)?;
    }
    Ok(())
}

fn kind_of(told: &Told) -> Kind
    ensures { result ≡ kind_of told.now }
{
    match told {
        Told::Committed { answered: true, .. } => Kind::Answered,
        Told::Committed { .. } => Kind::Unanswered,
        Told::Refused(_) => Kind::Refused,
        Told::Stopped => Kind::Stopped,
    }
}

/// The row of a number, 0 where it has none.
pub fn row_at(rows: &[u64], number: usize) -> u64
    ensures { result ≡ slice_index rows.now number }
{
    match rows.get(number) {
        Some(row) => *row,
        None => 0,
    }
}

fn bar_of(
    alloc: Global,
    scale: &Scale,
    lanes: &[Lane],
    entry: &ReportEntry,
    reach: Reach,
    row: u64,
) -> Result<Shape, NoMemory>
    ensures named { IfOk result (λ bar. bar.label ≡ entry.now.name) }
    ensures seen { IfOk result (λ bar. spec.seen_of bar ≡ spec.bar_seen scale.now entry.now reach) }
    ensures within { IfOk result (λ bar. IsWithin bar (lane_of lanes.now entry.now.member)) }
{
    let down = row_of(lane_of(lanes, entry.member.number() as u8), row);
    Ok(Shape {
        kind: kind_of(&entry.told),
        from: Spot {
            across: scale.across(reach.first),
            down,
        },
        to: Spot {
            across: end_of(scale, reach),
            down: down.saturating_add(BAR),
        },
        title: bar_title(alloc, entry, reach.first, reach.last)?,
        label: text_of(alloc, entry.name.as_slice())?,
    })
}

// Adds the bar of a transaction that has events in the picture.
fn put_bar(
    alloc: Global,
    bars: &mut ShapeList,
    scale: &Scale,
    lanes: &[Lane],
    entry: &ReportEntry,
    reach: Reach,
    row: u64,
) -> Result<(), NoMemory>
    ensures names { OnOk result (scale.now.is_whole ≡ true → map (λ b. b.label) bars.new ≡ map (λ b. b.label) bars.old ++ entry.now.name ∷ []) }
    ensures seen { OnOk result (map spec.seen_of bars.new ≡ map spec.seen_of bars.old ++ spec.bars_seen scale.now (entry.now, reach)) }
{
    if scale.meets(reach.first, reach.last) {
        bars.push(bar_of(alloc, scale, lanes, entry, reach, row)?)?;
    }
    Ok(())
}

/// The bars of all transactions that have events in the picture, in the order of the report.
#[tactic(auto, using(crate::proofs::Zips::joined_more, crate::proofs::Zips::zip_whole))]
pub fn bars_of(
    alloc: Global,
    scale: &Scale,
    lanes: &[Lane],
    entries: &[ReportEntry],
    reaches: &[Reach],
    rows: &[u64],
) -> Result<ShapeList, NoMemory>
    requires { length reaches.now ≡ length entries.now }
    ensures names { IfOk result (λ bars. scale.now.is_whole ≡ true → map (λ b. b.label) bars ≡ map (λ e. e.name) entries.now) }
    ensures seen { IfOk result (λ bars. map spec.seen_of bars ≡ flat_map (spec.bars_seen scale.now) (zip entries.now reaches.now)) }
{
    let mut bars = ShapeList::new(alloc);
    for at in 0..entries.len() {
        put_bar(
            alloc,
            &mut bars,
            scale,
            lanes,
            &entries[at],
            reach_at(reaches, at),
            row_at(rows, at),
        )?;
    }
    Ok(bars)
}

fn zeros(alloc: Global, count: usize) -> Result<Vec<u64>, NoMemory>
    ensures { IfOk result (λ zeros. vec_len zeros ≡ count) }
{
    let mut zeros = Vec::new(alloc);
    for _at in 0..count {
        zeros.push(0)?;
    }
    Ok(zeros)
}

// For each span the number of its entry; a number that no entry has where it belongs to none.
fn owners_of(alloc: Global, numbers: &[Option<usize>], spans: usize) -> Result<Vec<usize>, NoMemory>
    ensures { IfOk result (λ owners. vec_len owners ≡ spans) }
{
    let mut owners = Vec::new(alloc);
    for _span in 0..spans {
        owners.push(usize::MAX)?;
    }
    for entry in 0..numbers.len() {
        if let Some(number) = numbers[entry] {
            if let Some(slot) = owners.get_mut(number) {
                *slot = entry;
            }
        }
    }
    Ok(owners)
}

// In the order of first events.
fn give_rows(
    given: &mut [u64],
    rows: &mut Rows,
    scale: &Scale,
    entries: &[ReportEntry],
    reaches: &[Reach],
    owners: &[usize],
) -> Result<(), NoMemory>
    requires { length reaches.now ≡ length entries.now }
    ensures { length given.new ≡ length given.old }
{
    for owner in owners {
        let at = *owner;
        if at < entries.len() {
            give_row(given, rows, scale, &entries[at], reaches[at], at)?;
        }
    }
    Ok(())
}

// Those of transactions that never began.
fn give_others(
    given: &mut [u64],
    rows: &mut Rows,
    scale: &Scale,
    entries: &[ReportEntry],
    reaches: &[Reach],
    numbers: &[Option<usize>],
) -> Result<(), NoMemory>
    requires { length reaches.now ≡ length entries.now }
    ensures { length given.new ≡ length given.old }
{
    for at in 0..entries.len().min(numbers.len()) {
        if numbers[at].is_none() {
            give_row(given, rows, scale, &entries[at], reaches[at], at)?;
        }
    }
    Ok(())
}

/// The rows of all transactions in their members' lanes: in the order of their first events, so that few rows are wanted, and then of
/// those that never began.
pub fn rows_of(
    alloc: Global,
    rows: &mut Rows,
    scale: &Scale,
    entries: &[ReportEntry],
    reaches: &[Reach],
    numbers: &[Option<usize>],
    spans: usize,
) -> Result<Vec<u64>, NoMemory>
    requires { length reaches.now ≡ length entries.now }
    ensures { IfOk result (λ given. vec_len given ≡ length entries.now) }
{
    let mut given = zeros(alloc, entries.len())?;
    let owners = owners_of(alloc, numbers, spans)?;
    give_rows(&mut given, rows, scale, entries, reaches, &owners)?;
    give_others(&mut given, rows, scale, entries, reaches, numbers)?;
    Ok(given)
}

/// For each span the row of its transaction.
pub fn rows_by_span(
    alloc: Global,
    rows: &[u64],
    numbers: &[Option<usize>],
    spans: usize,
) -> Result<Vec<u64>, NoMemory>
    ensures { IfOk result (λ given. vec_len given ≡ spans) }
{
    let mut given = zeros(alloc, spans)?;
    for entry in 0..numbers.len() {
        if let Some(number) = numbers[entry] {
            if let Some(slot) = given.get_mut(number) {
                *slot = row_at(rows, entry);
            }
        }
    }
    Ok(given)
}
