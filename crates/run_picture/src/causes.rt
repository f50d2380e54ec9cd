//! What was in the way of a refused transaction: a line from its bar to that of the other, or to a member's lane.

ghost use Rattle.std.specs.Prelude.{◌≡◌, ◌++◌, map, IfOk, OnOk};
ghost use Rattle.std.specs.List.{flat_map};
ghost use Rattle.picture_text.specs.declared.picture.Kind.TheVariants as kinds;
ghost use Rattle.run_picture.specs.Seen as spec;
ghost use Rattle.run_picture.specs.Titles.{fate_text};

use crate::bars::row_at;
use crate::lane::Lane;
use crate::lanes::{BAR, lane_of, line_of, row_of};
use crate::matching::{cause_places, place_in};
use crate::names::NameNumbers;
use crate::scale::Scale;
use crate::titles::put_fate;
use ds_base::{Bytes, NoMemory};
use ds_model::{CauseLine, ReportEntry, Told, ToldRefusal};
use picture_text::{Kind, Shape, ShapeList, Spot};
use std::alloc::Global;

// Where bars stand.
#[derive(Drop)]
struct Sight<'a> {
    lanes: &'a [Lane],
    entries: &'a [ReportEntry],
    rows: &'a [u64],
    names: &'a NameNumbers,
}

// The middle of the bar of the entry with this number.
fn middle_of(sight: &Sight<'_>, number: usize) -> u64 {
    match sight.entries.get(number) {
        Some(entry) => {
            let row = row_at(sight.rows, number);
            let lane = lane_of(sight.lanes, entry.member.number() as u8);
            row_of(lane, row).saturating_add(BAR / 2)
        }
        None => 0,
    }
}

// The side of a bar that faces a line's end.
fn edge_of(middle: u64, end: u64) -> u64 {
    if end < middle {
        middle.saturating_sub(BAR / 2)
    } else if middle.saturating_add(BAR / 2) < end {
        middle.saturating_add(BAR / 2)
    } else {
        middle
    }
}

// The middle of the bar of the transaction with this name.
fn middle_named(sight: &Sight<'_>, name: &Bytes) -> u64 {
    match sight.names.get(name.as_slice()) {
        Some(number) => middle_of(sight, number as usize),
        None => 0,
    }
}

// The numbers of entries by their names.
fn entry_numbers(alloc: Global, entries: &[ReportEntry]) -> Result<NameNumbers, NoMemory> {
    let mut names = NameNumbers::new(alloc);
    let mut number: u64 = 0;
    for entry in entries {
        names.put(alloc, entry.name.as_slice(), number)?;
        number = number.saturating_add(1);
    }
    Ok(names)
}

fn line_to(
    alloc: Global,
    entry: &ReportEntry,
    across: u64,
    from: u64,
    to: u64,
) -> Result<Shape, NoMemory>
    ensures title { IfOk result (λ line. line.title ≡ fate_text entry.now) }
    ensures kind { IfOk result (λ line. line.kind ≡ kinds.Cause) }
    ensures across { IfOk result (λ line. (line.from.across ≡ across) × (line.to.across ≡ across)) }
{
    let mut title = Bytes::new(alloc);
    put_fate(alloc, &mut title, entry)?;
    Ok(Shape {
        kind: Kind::Cause,
        from: Spot { across, down: from },
        to: Spot { across, down: to },
        title,
        label: Bytes::new(alloc),
    })
}

// Where the line of a refusal ends: at the transaction that held the lock or that the refused one waited for, at the member that
// retained the lock, or at the lower side of its own bar.
fn end_of(sight: &Sight<'_>, refusal: &ToldRefusal, own: u64) -> u64 {
    match refusal {
        ToldRefusal::Held { by, .. } => middle_named(sight, by),
        ToldRefusal::Retained { by, .. } => line_of(lane_of(sight.lanes, by.number() as u8)),
        ToldRefusal::Deadlock { cycle } => match cycle.as_slice().get(1) {
            Some(next) => middle_named(sight, next),
            None => own,
        },
        _ => own.saturating_add(BAR / 2),
    }
}

fn cause_of(
    alloc: Global,
    sight: &Sight<'_>,
    scale: &Scale,
    number: usize,
    entry: &ReportEntry,
    refusal: &ToldRefusal,
    place: u64,
) -> Result<Shape, NoMemory>
    ensures { IfOk result (λ cause. spec.seen_of cause ≡ spec.cause_seen scale.now place entry.now) }
{
    let own = middle_of(sight, number);
    let end = end_of(sight, refusal, own);
    line_to(alloc, entry, scale.across(place), edge_of(own, end), end)
}

// Adds the cause of a refusal that is in the picture.
fn put_cause(
    alloc: Global,
    causes: &mut ShapeList,
    sight: &Sight<'_>,
    scale: &Scale,
    number: usize,
    entry: &ReportEntry,
    place: u64,
) -> Result<(), NoMemory>
    ensures { OnOk result (map spec.seen_of causes.new ≡ map spec.seen_of causes.old ++ spec.cause_seen_by entry.now.told scale.now place entry.now) }
{
    if let Told::Refused(refusal) = &entry.told {
        if scale.has(place) {
            causes.push(cause_of(alloc, sight, scale, number, entry, refusal, place)?)?;
        }
    }
    Ok(())
}

/// The causes of refusals that are in the picture.
#[tactic(auto, unfolding(crate::specs::Seen::causes_seen))]
pub fn causes_of(
    alloc: Global,
    scale: &Scale,
    lanes: &[Lane],
    entries: &[ReportEntry],
    causes: &[CauseLine],
    rows: &[u64],
) -> Result<ShapeList, NoMemory>
    ensures { IfOk result (λ shapes. map spec.seen_of shapes ≡ flat_map (spec.causes_seen scale.now causes.now) entries.now) }
{
    let places = cause_places(alloc, causes)?;
    let names = entry_numbers(alloc, entries)?;
    let sight = Sight {
        lanes,
        entries,
        rows,
        names: &names,
    };
    let mut shapes = ShapeList::new(alloc);
    let mut number: usize = 0;
    for entry in entries {
        let place = place_in(&places, &entry.name);
        put_cause(alloc, &mut shapes, &sight, scale, number, entry, place)?;
        number = number.saturating_add(1);
    }
    Ok(shapes)
}
