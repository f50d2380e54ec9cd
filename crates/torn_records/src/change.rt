ghost use Rattle.std.specs.Prelude.{◌≡◌, ℕ, ◌<◌, ◌≤◌, ◌++◌, length, OnOk, IfOk};
ghost use Rattle.torn_records.specs.Fronts.{Tells, IsRowChangeIn, IsCompensationIn, IsChangeIn, HasStateBefore, ChangesRow};
ghost use Rattle.torn_records.specs.Templates.{state_text, change_text};

use crate::frame::{is_front_with, put_number};
use ds_base::{Bytes, NoMemory};
use ds_model::Version;
use std::alloc::Global;

// No row, or one with a value of up to 100 bytes.
const SHAPES: usize = 102;

// The table 1, the key 0, the page 1 and the slot 0.
const ROW: [u8; 15] = [1, 0, 0, 0, 0, 0, 0, 0, 0, 0, 0, 0, 1, 0, 0];

const VALUE: [u8; 100] = [0x21; 100];

// A state of this shape: 0 where there is no row, and else one more than its value's bytes.
fn put_state(text: &mut Bytes, shape: usize) -> Result<(), NoMemory>
    requires { shape < 102 }
    ensures { OnOk result (text.new ≡ text.old ++ state_text shape) }
{
    if shape == 0 {
        return text.extend(&[1, 0]);
    }
    let count = shape - 1;
    text.extend(&[2, count as u8])?;
    text.extend(&VALUE[..count])?;
    Ok(())
}

#[tactic(auto, using(crate::proofs::Texts::change_short))]
fn change_text(alloc: Global, before: usize, after: usize) -> Result<Bytes, NoMemory>
    requires before_in { before < 102 }
    requires after_in { after < 102 }
    ensures text { IfOk result (λ text. text ≡ change_text before after) }
    ensures short { IfOk result (λ text. length text ≤ 300) }
{
    let mut text = Bytes::new(alloc);
    text.extend(&ROW)?;
    put_state(&mut text, before)?;
    put_state(&mut text, after)?;
    Ok(text)
}

// Whether the bytes are a front of a row change whose states have these shapes.
fn is_front_of_row_change(
    alloc: Global,
    bytes: &[u8],
    version: Version,
    before: usize,
    after: usize,
) -> Result<bool, NoMemory>
    requires before_in { before < 102 }
    requires after_in { after < 102 }
    ensures { Tells bytes.now (IsRowChangeIn version before after) result }
{
    let text = change_text(alloc, before, after)?;
    is_front_with(alloc, bytes, version, 1, true, text.as_slice())
}

fn is_front_of_compensation(
    alloc: Global,
    bytes: &[u8],
    version: Version,
    before: usize,
    after: usize,
) -> Result<bool, NoMemory>
    requires before_in { before < 102 }
    requires after_in { after < 102 }
    ensures { Tells bytes.now (IsCompensationIn version before after) result }
{
    let mut text = change_text(alloc, before, after)?;
    put_number(&mut text, version)?;
    is_front_with(alloc, bytes, version, 2, true, text.as_slice())
}

fn is_front_of_change(
    alloc: Global,
    bytes: &[u8],
    version: Version,
    before: usize,
    after: usize,
) -> Result<bool, NoMemory>
    requires before_in { before < 102 }
    requires after_in { after < 102 }
    ensures { Tells bytes.now (IsChangeIn version before after) result }
{
    let is_front = is_front_of_row_change(alloc, bytes, version, before, after)?;
    if is_front {
        return Ok(true);
    }
    is_front_of_compensation(alloc, bytes, version, before, after)
}

fn is_front_with_before(
    alloc: Global,
    bytes: &[u8],
    version: Version,
    before: usize,
) -> Result<bool, NoMemory>
    requires { before < 102 }
    ensures { Tells bytes.now (HasStateBefore version before) result }
{
    for after in 0..SHAPES {
        let is_front = is_front_of_change(alloc, bytes, version, before, after)?;
        if is_front {
            return Ok(true);
        }
    }
    Ok(false)
}

/// Whether the bytes are a proper front of a record of the version that changes a row, or takes a change back.
pub fn is_front_of_changes(alloc: Global, bytes: &[u8], version: Version) -> Result<bool, NoMemory>
    ensures { Tells bytes.now (ChangesRow version) result }
{
    for before in 0..SHAPES {
        let is_front = is_front_with_before(alloc, bytes, version, before)?;
        if is_front {
            return Ok(true);
        }
    }
    Ok(false)
}
