//! The spelling of one shape.

ghost use Rattle.std.specs.Prelude.{◌≡◌, ◌++◌, OnOk};
ghost use Rattle.picture_text.specs.Svg as spec;

use crate::picture::{Kind, Shape, Spot};
use ds_base::{Bytes, NoMemory};
use std::alloc::Global;

fn kind_word(kind: Kind) -> &'static [u8]
    ensures { result.now ≡ spec.kind_word kind }
{
    match kind {
        Kind::Lane => b"lane",
        Kind::Phase => b"phase",
        Kind::Answered => b"answered",
        Kind::Unanswered => b"unanswered",
        Kind::Refused => b"refused",
        Kind::Stopped => b"stopped",
        Kind::Wait => b"wait",
        Kind::Rung => b"rung",
        Kind::Event => b"event",
        Kind::Page => b"page",
        Kind::Failure => b"failure",
        Kind::Mended => b"mended",
        Kind::Cause => b"cause",
    }
}

fn is_area(kind: Kind) -> bool
    ensures { result ≡ spec.is_area kind }
{
    matches!(
        kind,
        Kind::Lane | Kind::Answered | Kind::Unanswered | Kind::Refused | Kind::Stopped | Kind::Wait
    )
}

/// Adds a text and the digits of a number.
#[tactic(auto, unfolding(crate::specs::Svg::counted))]
pub fn put_counted(alloc: Global, out: &mut Bytes, text: &[u8], number: u64) -> Result<(), NoMemory>
    ensures { OnOk result (out.new ≡ out.old ++ spec.counted text.now number) }
{
    out.extend(text)?;
    out.extend_number(alloc, number)
}

#[tactic(auto, unfolding(crate::specs::Svg::spot_text))]
fn put_spot(alloc: Global, out: &mut Bytes, text: &[u8], spot: Spot) -> Result<(), NoMemory>
    ensures { OnOk result (out.new ≡ out.old ++ spec.spot_text text.now spot) }
{
    put_counted(alloc, out, text, spot.across)?;
    put_counted(alloc, out, b" ", spot.down)
}

#[tactic(auto, unfolding(crate::specs::Svg::sides))]
fn put_sides(alloc: Global, out: &mut Bytes, from: Spot, to: Spot) -> Result<(), NoMemory>
    ensures { OnOk result (out.new ≡ out.old ++ spec.sides from to) }
{
    put_counted(alloc, out, b"H", to.across)?;
    put_counted(alloc, out, b"V", to.down)?;
    put_counted(alloc, out, b"H", from.across)?;
    out.extend(b"Z")
}

fn put_rest(
    alloc: Global,
    out: &mut Bytes,
    kind: Kind,
    from: Spot,
    to: Spot,
) -> Result<(), NoMemory>
    ensures { OnOk result (out.new ≡ out.old ++ spec.rest_of_path kind from to) }
{
    if is_area(kind) {
        put_sides(alloc, out, from, to)
    } else {
        put_spot(alloc, out, b"L", to)
    }
}

#[tactic(auto, unfolding(crate::specs::Svg::path_text))]
fn put_path(alloc: Global, out: &mut Bytes, shape: &Shape) -> Result<(), NoMemory>
    ensures { OnOk result (out.new ≡ out.old ++ spec.path_text shape.now) }
{
    put_spot(alloc, out, b"<path d='M", shape.from)?;
    put_rest(alloc, out, shape.kind, shape.from, shape.to)?;
    out.extend(b"'/>")
}

#[tactic(auto, unfolding(crate::specs::Svg::label_opening))]
fn label_opening() -> &'static [u8]
    ensures { result.now ≡ spec.label_opening }
{
    b"<text dx='5' dy='13' x='"
}

#[tactic(auto, unfolding(crate::specs::Svg::label_place))]
fn put_label_place(alloc: Global, out: &mut Bytes, at: Spot) -> Result<(), NoMemory>
    ensures { OnOk result (out.new ≡ out.old ++ spec.label_place at) }
{
    put_counted(alloc, out, label_opening(), at.across)?;
    put_counted(alloc, out, b"' y='", at.down)
}

#[tactic(auto, unfolding(crate::specs::Svg::label_at))]
fn put_label_at(alloc: Global, out: &mut Bytes, at: Spot, label: &[u8]) -> Result<(), NoMemory>
    ensures { OnOk result (out.new ≡ out.old ++ spec.label_at at label.now) }
{
    put_label_place(alloc, out, at)?;
    out.extend(b"'>")?;
    out.extend(label)?;
    out.extend(b"</text>")
}

fn put_label(alloc: Global, out: &mut Bytes, at: Spot, label: &[u8]) -> Result<(), NoMemory>
    ensures { OnOk result (out.new ≡ out.old ++ spec.label_text at label.now) }
{
    if label.is_empty() {
        return Ok(());
    }
    put_label_at(alloc, out, at, label)
}

#[tactic(auto, unfolding(crate::specs::Svg::title_text))]
fn put_title(out: &mut Bytes, kind: Kind, title: &[u8]) -> Result<(), NoMemory>
    ensures { OnOk result (out.new ≡ out.old ++ spec.title_text kind title.now) }
{
    out.extend(b"<g class='")?;
    out.extend(kind_word(kind))?;
    out.extend(b"'><title>")?;
    out.extend(title)?;
    out.extend(b"</title>")
}

#[tactic(auto, unfolding(crate::specs::Svg::shape_text))]
pub fn put_shape(alloc: Global, out: &mut Bytes, shape: &Shape) -> Result<(), NoMemory>
    ensures { OnOk result (out.new ≡ out.old ++ spec.shape_text shape.now) }
{
    put_title(out, shape.kind, shape.title.as_slice())?;
    put_path(alloc, out, shape)?;
    put_label(alloc, out, shape.from, shape.label.as_slice())?;
    out.extend(b"</g>\n")
}
