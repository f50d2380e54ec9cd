//! The events: each a stroke in its member's lane.

ghost use Rattle.std.specs.Prelude.{◌≡◌, ◌≤◌, ◌++◌, map, IfOk, OnOk};
ghost use Rattle.std.specs.List.{flat_map};
ghost use Rattle.picture_text.specs.declared.picture.Kind.TheVariants as kinds;
ghost use Rattle.run_picture.specs.Seen as spec;
ghost use Rattle.run_picture.specs.Places.{lane_of, pixels_of, spot_of, spots_of};

use crate::lane::Lane;
use crate::lanes::{lane_of, line_of};
use crate::scale::Scale;
use crate::titles::event_title;
use ds_base::{Bytes, NoMemory};
use ds_model::EventLine;
use picture_text::{Kind, Shape, ShapeList, Spot};
use std::alloc::Global;

// Strokes of seats are longer than those of a member's other choices.
fn length_of(event: &EventLine) -> u64
    ensures { result ≤ 24 }
{
    if event.member > 0 && 1 <= event.choice && event.choice <= 16 {
        10
    } else {
        6
    }
}

fn stroke(
    alloc: Global,
    scale: &Scale,
    lanes: &[Lane],
    event: &EventLine,
) -> Result<Shape, NoMemory>
    ensures spot { IfOk result (λ s. s.from ≡ spot_of scale.now lanes.now event.now) }
    ensures seen { IfOk result (λ s. spec.seen_of s ≡ spec.event_seen kinds.Event scale.now event.now) }
    ensures within { IfOk result (λ s. (lane_of lanes.now event.now.member).top ≤ s.to.down) }
    ensures above { IfOk result (λ s. s.from.down ≤ (lane_of lanes.now event.now.member).bottom) }
{
    let across = scale.across(event.place);
    let down = line_of(lane_of(lanes, event.member));
    Ok(Shape {
        kind: Kind::Event,
        from: Spot { across, down },
        to: Spot {
            across,
            down: down - length_of(event),
        },
        title: event_title(alloc, event)?,
        label: Bytes::new(alloc),
    })
}

fn put_stroke(
    alloc: Global,
    strokes: &mut ShapeList,
    scale: &Scale,
    lanes: &[Lane],
    event: &EventLine,
) -> Result<(), NoMemory>
    ensures spots { OnOk result (map (λ s. s.from) strokes.new ≡ map (λ s. s.from) strokes.old ++ spots_of scale.now lanes.now event.now) }
    ensures seen { OnOk result (map spec.seen_of strokes.new ≡ map spec.seen_of strokes.old ++ spec.events_seen scale.now event.now) }
    ensures pixels { OnOk result (map (λ s. s.from.across) strokes.new ≡ map (λ s. s.from.across) strokes.old ++ pixels_of scale.now event.now) }
{
    if scale.draws(event.place) {
        strokes.push(stroke(alloc, scale, lanes, event)?)?;
    }
    Ok(())
}

/// The strokes of the events that are drawn.
pub fn strokes_of(
    alloc: Global,
    scale: &Scale,
    lanes: &[Lane],
    events: &[EventLine],
) -> Result<ShapeList, NoMemory>
    ensures spots { IfOk result (λ strokes. map (λ s. s.from) strokes ≡ flat_map (spots_of scale.now lanes.now) events.now) }
    ensures seen { IfOk result (λ strokes. map spec.seen_of strokes ≡ flat_map (spec.events_seen scale.now) events.now) }
    ensures pixels { IfOk result (λ strokes. map (λ s. s.from.across) strokes ≡ flat_map (pixels_of scale.now) events.now) }
{
    let mut strokes = ShapeList::new(alloc);
    for event in events {
        put_stroke(alloc, &mut strokes, scale, lanes, event)?;
    }
    Ok(strokes)
}
