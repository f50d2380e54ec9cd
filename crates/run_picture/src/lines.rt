//! Waits, and lines between lanes: what came before the end of a wait, and pages that went to another member.

ghost use Rattle.std.specs.Prelude.{◌≡◌, ◌++◌, map, IfOk, OnOk};
ghost use Rattle.std.specs.List.{flat_map};
ghost use Rattle.run_picture.specs.Places as places;
ghost use Rattle.run_picture.specs.Seen as spec;

use crate::bars::row_at;
use crate::lane::Lane;
use crate::lanes::{BAR, lane_of, line_of, row_of};
use crate::scale::Scale;
use crate::titles::counted_twice;
use ds_base::{Bytes, NoMemory};
use picture_text::{Kind, Shape, ShapeList, Spot};
use run_spans::{At, Passage, Wait};
use std::alloc::Global;

// Where the stroke of an event ends.
fn spot_of(scale: &Scale, lanes: &[Lane], at: &At) -> Spot
    ensures { result.across ≡ places.across_of scale.now at.now.place }
{
    Spot {
        across: scale.across(at.place),
        down: line_of(lane_of(lanes, at.member)),
    }
}

fn hatched(
    alloc: Global,
    scale: &Scale,
    lanes: &[Lane],
    wait: &Wait,
    row: u64,
) -> Result<Shape, NoMemory>
    ensures { IfOk result (λ shape. spec.seen_of shape ≡ spec.wait_seen scale.now wait.now) }
{
    let down = row_of(lane_of(lanes, wait.member), row);
    Ok(Shape {
        kind: Kind::Wait,
        from: Spot {
            across: scale.across(wait.from),
            down: down.saturating_add(1),
        },
        to: Spot {
            across: scale.across(wait.to),
            down: down.saturating_add(BAR - 1),
        },
        title: counted_twice(alloc, b"waits from event ", wait.from, b" to ", wait.to)?,
        label: Bytes::new(alloc),
    })
}

// From the event that came last before the end of a wait to that end.
fn rung_by(
    alloc: Global,
    scale: &Scale,
    lanes: &[Lane],
    wait: &Wait,
    row: u64,
) -> Result<Shape, NoMemory>
    ensures { IfOk result (λ shape. spec.seen_of shape ≡ spec.rung_seen scale.now wait.now) }
{
    let down = row_of(lane_of(lanes, wait.member), row);
    Ok(Shape {
        kind: Kind::Rung,
        from: spot_of(scale, lanes, &wait.rung),
        to: Spot {
            across: scale.across(wait.to),
            down,
        },
        title: counted_twice(
            alloc,
            b"the wait until event ",
            wait.to,
            b" was over behind event ",
            wait.rung.place,
        )?,
        label: Bytes::new(alloc),
    })
}

fn put_rung(
    alloc: Global,
    shapes: &mut ShapeList,
    scale: &Scale,
    lanes: &[Lane],
    wait: &Wait,
    row: u64,
) -> Result<(), NoMemory>
    ensures { OnOk result (map spec.seen_of shapes.new ≡ map spec.seen_of shapes.old ++ spec.rungs_seen scale.now wait.now) }
{
    if wait.from < wait.rung.place && scale.has(wait.rung.place) {
        shapes.push(rung_by(alloc, scale, lanes, wait, row)?)?;
    }
    Ok(())
}

#[tactic(auto, unfolding(crate::specs::Seen::waits_seen))]
fn put_wait(
    alloc: Global,
    shapes: &mut ShapeList,
    scale: &Scale,
    lanes: &[Lane],
    wait: &Wait,
    row: u64,
) -> Result<(), NoMemory>
    ensures { OnOk result (map spec.seen_of shapes.new ≡ map spec.seen_of shapes.old ++ spec.waits_seen scale.now wait.now) }
{
    if scale.meets(wait.from, wait.to) {
        shapes.push(hatched(alloc, scale, lanes, wait, row)?)?;
        put_rung(alloc, shapes, scale, lanes, wait, row)?;
    }
    Ok(())
}

/// The waits that are in the picture, each with a line from what it ended behind, where that came in the wait.
pub fn waits_of(
    alloc: Global,
    scale: &Scale,
    lanes: &[Lane],
    waits: &[Wait],
    rows: &[u64],
) -> Result<ShapeList, NoMemory>
    ensures { IfOk result (λ shapes. map spec.seen_of shapes ≡ flat_map (spec.waits_seen scale.now) waits.now) }
{
    let mut shapes = ShapeList::new(alloc);
    for wait in waits {
        let row = row_at(rows, wait.span);
        put_wait(alloc, &mut shapes, scale, lanes, wait, row)?;
    }
    Ok(shapes)
}

fn arrow(alloc: Global, scale: &Scale, lanes: &[Lane], page: &Passage) -> Result<Shape, NoMemory>
    ensures { IfOk result (λ shape. spec.seen_of shape ≡ spec.page_seen scale.now page.now) }
{
    Ok(Shape {
        kind: Kind::Page,
        from: spot_of(scale, lanes, &page.write),
        to: spot_of(scale, lanes, &page.read),
        title: counted_twice(
            alloc,
            b"a page was written at event ",
            page.write.place,
            b", and one found at event ",
            page.read.place,
        )?,
        label: Bytes::new(alloc),
    })
}

/// The arrows of pages that went from one member to another.
pub fn pages_of(
    alloc: Global,
    scale: &Scale,
    lanes: &[Lane],
    pages: &[Passage],
) -> Result<ShapeList, NoMemory>
    ensures { IfOk result (λ shapes. map spec.seen_of shapes ≡ flat_map (spec.pages_seen scale.now) pages.now) }
{
    let mut shapes = ShapeList::new(alloc);
    for page in pages {
        if scale.has(page.write.place) && scale.draws(page.read.place) {
            shapes.push(arrow(alloc, scale, lanes, page)?)?;
        }
    }
    Ok(shapes)
}
