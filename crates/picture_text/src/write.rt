//! The spelling of a picture.

ghost use Rattle.std.specs.Prelude.{◌≡◌, ◌++◌, OnOk, IfOk};
ghost use Rattle.picture_text.specs.Svg as spec;

use crate::picture::{Picture, Shape};
use crate::spell::{put_counted, put_shape};
use ds_base::{Bytes, NoMemory};
use std::alloc::Global;

fn put_shapes(alloc: Global, out: &mut Bytes, shapes: &[Shape]) -> Result<(), NoMemory>
    ensures { OnOk result (out.new ≡ out.old ++ spec.shapes_text shapes.now) }
{
    for shape in shapes {
        put_shape(alloc, out, shape)?;
    }
    Ok(())
}

#[tactic(auto, unfolding(crate::specs::Svg::width_text))]
fn width_text() -> &'static [u8]
    ensures { result.now ≡ spec.width_text }
{
    b"<svg viewBox='0 0 1400 "
}

#[tactic(auto, unfolding(crate::specs::Svg::opening))]
fn put_opening(alloc: Global, out: &mut Bytes, height: u64) -> Result<(), NoMemory>
    ensures { OnOk result (out.new ≡ out.old ++ spec.opening height) }
{
    put_counted(alloc, out, width_text(), height)?;
    out.extend(b"' ")
}

#[tactic(auto, unfolding(crate::specs::Svg::lower))]
fn put_lower(alloc: Global, out: &mut Bytes, picture: &Picture) -> Result<(), NoMemory>
    ensures { OnOk result (out.new ≡ out.old ++ spec.lower picture.now) }
{
    put_shapes(alloc, out, picture.lanes.as_slice())?;
    put_shapes(alloc, out, picture.phases.as_slice())?;
    put_shapes(alloc, out, picture.bars.as_slice())?;
    put_shapes(alloc, out, picture.waits.as_slice())
}

#[tactic(auto, unfolding(crate::specs::Svg::upper))]
fn put_upper(alloc: Global, out: &mut Bytes, picture: &Picture) -> Result<(), NoMemory>
    ensures { OnOk result (out.new ≡ out.old ++ spec.upper picture.now) }
{
    put_shapes(alloc, out, picture.events.as_slice())?;
    put_shapes(alloc, out, picture.pages.as_slice())?;
    put_shapes(alloc, out, picture.marks.as_slice())?;
    put_shapes(alloc, out, picture.causes.as_slice())
}

/// The SVG text of a picture. Behind the opening word and its size stands the caller's style: the rest of that word, and what the
/// classes of shapes look like.
#[tactic(auto, unfolding(crate::specs::Svg::picture_text))]
pub fn write_picture(alloc: Global, style: &[u8], picture: &Picture) -> Result<Bytes, NoMemory>
    ensures { IfOk result (λ text. text ≡ spec.picture_text style.now picture.now) }
{
    let mut out = Bytes::new(alloc);
    put_opening(alloc, &mut out, picture.height)?;
    out.extend(style)?;
    put_lower(alloc, &mut out, picture)?;
    put_upper(alloc, &mut out, picture)?;
    out.extend(b"</svg>\n")?;
    Ok(out)
}
