//! Lanes, phases, failures and what mends them.

ghost use Rattle.std.specs.Prelude.{◌≡◌, ◌++◌, map, IfOk, OnOk};
ghost use Rattle.std.specs.List.{flat_map};
ghost use Rattle.run_picture.specs.Marking.{mark_kind};
ghost use Rattle.run_picture.specs.Seen as spec;

use crate::lane::Lane;
use crate::lanes::{height_of, lane_of};
use crate::mark::{Mark, mark_of};
use crate::scale::{EDGE, RIGHT, Scale};
use crate::titles::{counted, event_title, text_of};
use ds_base::{Bytes, NoMemory};
use ds_model::EventLine;
use picture_text::{Kind, Shape, ShapeList, Spot};
use std::alloc::Global;

fn label_of(alloc: Global, member: u64) -> Result<Bytes, NoMemory> {
    if member == 0 {
        text_of(alloc, b"group")
    } else {
        counted(alloc, b"M", member)
    }
}

fn draw_lane(alloc: Global, lane: Lane, member: u64) -> Result<Shape, NoMemory>
    ensures { IfOk result (λ shape. spec.lane_seen shape ≡ lane) }
{
    Ok(Shape {
        kind: Kind::Lane,
        from: Spot {
            across: EDGE,
            down: lane.top,
        },
        to: Spot {
            across: RIGHT,
            down: lane.bottom,
        },
        title: counted(alloc, b"member ", member)?,
        label: label_of(alloc, member)?,
    })
}

/// The lanes of the group and of its members.
pub fn lanes_of(alloc: Global, lanes: &[Lane]) -> Result<ShapeList, NoMemory>
    ensures { IfOk result (λ shapes. map spec.lane_seen shapes ≡ lanes.now) }
{
    let mut shapes = ShapeList::new(alloc);
    let mut member: u64 = 0;
    for lane in lanes {
        shapes.push(draw_lane(alloc, *lane, member)?)?;
        member = member.saturating_add(1);
    }
    Ok(shapes)
}

// The lanes over which a mark goes, and where its texts end so far.
#[derive(Clone, Copy)]
struct Board {
    ends: [u64; 33],
    phases: u64,
}

// A phase's text has its number.
fn text_for(alloc: Global, mark: Mark, phases: u64) -> Result<Bytes, NoMemory> {
    if mark.is_phase() {
        counted(alloc, mark.words(), phases)
    } else {
        text_of(alloc, mark.words())
    }
}

// The text, where the one before it leaves room for it.
fn label_for(
    alloc: Global,
    board: &mut Board,
    member: u8,
    across: u64,
    text: Bytes,
) -> Result<Bytes, NoMemory> {
    let lane = usize::from(member).min(32);
    let end = across
        .saturating_add((text.len() as u64).saturating_mul(8))
        .saturating_add(6);
    if across < board.ends[lane] || end > RIGHT {
        return Ok(Bytes::new(alloc));
    }
    board.ends[lane] = end;
    Ok(text)
}

// From the top of its lane to the bottom; one of the group goes over all lanes.
fn draw_mark(
    alloc: Global,
    scale: &Scale,
    lanes: &[Lane],
    board: &mut Board,
    event: &EventLine,
    mark: Mark,
) -> Result<Shape, NoMemory>
    ensures { IfOk result (λ shape. spec.seen_of shape ≡ spec.event_seen (mark_kind mark) scale.now event.now) }
{
    let across = scale.across(event.place);
    let text = text_for(alloc, mark, board.phases)?;
    let bottom = if event.member == 0 {
        height_of(lanes)
    } else {
        lane_of(lanes, event.member).bottom
    };
    Ok(Shape {
        kind: mark.kind(),
        from: Spot {
            across,
            down: lane_of(lanes, event.member).top,
        },
        to: Spot {
            across,
            down: bottom,
        },
        title: event_title(alloc, event)?,
        label: label_for(alloc, board, event.member, across, text)?,
    })
}

#[tactic(auto, unfolding(crate::specs::Seen::marks_seen))]
fn put_mark(
    alloc: Global,
    shapes: &mut ShapeList,
    scale: &Scale,
    lanes: &[Lane],
    board: &mut Board,
    event: &EventLine,
    of_phases: bool,
) -> Result<(), NoMemory>
    ensures { OnOk result (map spec.seen_of shapes.new ≡ map spec.seen_of shapes.old ++ spec.marks_seen scale.now of_phases event.now) }
{
    let Some(mark) = mark_of(event) else {
        return Ok(());
    };
    if mark.is_phase() {
        board.phases = board.phases.saturating_add(1);
    }
    if mark.is_of(of_phases) && scale.has(event.place) {
        shapes.push(draw_mark(alloc, scale, lanes, board, event, mark)?)?;
    }
    Ok(())
}

/// The marks of a kind: those of phases, or all others.
pub fn marks_of(
    alloc: Global,
    scale: &Scale,
    lanes: &[Lane],
    events: &[EventLine],
    of_phases: bool,
) -> Result<ShapeList, NoMemory>
    ensures { IfOk result (λ shapes. map spec.seen_of shapes ≡ flat_map (spec.marks_seen scale.now of_phases) events.now) }
{
    let mut shapes = ShapeList::new(alloc);
    let mut board = Board {
        ends: [0; 33],
        phases: 0,
    };
    for event in events {
        put_mark(
            alloc,
            &mut shapes,
            scale,
            lanes,
            &mut board,
            event,
            of_phases,
        )?;
    }
    Ok(shapes)
}
