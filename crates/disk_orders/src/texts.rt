//! The lines that are told of a check and of a recovery.

ghost use Rattle.std.specs.Prelude.{◌≡◌, ◌++◌, decimal, OnOk};
ghost use Rattle.disk_orders.specs.Texts.{sound_text, spot_text, breach_text, image_text, recovered_text};

use disk_spots::Spot;
use ds_base::{Bytes, NoMemory, TableId};
use space_check::Breach;
use std::alloc::Global;

fn put_number(alloc: Global, out: &mut Bytes, text: &[u8], number: u64) -> Result<(), NoMemory>
    ensures { OnOk result (out.new ≡ out.old ++ (text.now ++ decimal number)) }
{
    out.extend(text)?;
    out.extend_number(alloc, number)
}

/// The line for a sound disk.
#[tactic(auto, unfolding(crate::specs::Texts::sound_text))]
pub fn put_sound(alloc: Global, out: &mut Bytes, pages: u64, rows: u64) -> Result<(), NoMemory>
    ensures { OnOk result (out.new ≡ out.old ++ sound_text pages rows) }
{
    put_number(alloc, out, b"sound pages ", pages)?;
    put_number(alloc, out, b" rows ", rows)?;
    out.extend(b"\n")
}

#[tactic(auto, unfolding(crate::specs::Texts::spot_text))]
fn put_spot(alloc: Global, out: &mut Bytes, spot: &Spot) -> Result<(), NoMemory>
    ensures { OnOk result (out.new ≡ out.old ++ spot_text spot.now) }
{
    match spot {
        Spot::Log { member, at } => {
            put_number(alloc, out, b" log M", member.number())?;
            put_number(alloc, out, b" at ", *at)
        }
        Spot::Page { id } => {
            put_number(alloc, out, b" page ", id.set as u64)?;
            put_number(alloc, out, b" ", id.number as u64)
        }
    }
}

/// The line for a disk of which a clause doesn't hold.
#[tactic(auto, unfolding(crate::specs::Texts::breach_text))]
pub fn put_breach(alloc: Global, out: &mut Bytes, breach: &Breach) -> Result<(), NoMemory>
    ensures { OnOk result (out.new ≡ out.old ++ breach_text breach.now) }
{
    put_number(alloc, out, b"unsound ", breach.clause.number() as u64)?;
    put_spot(alloc, out, &breach.at)?;
    out.extend(b"\n")
}

/// The line for an image that is refused at this byte.
#[tactic(auto, unfolding(crate::specs::Texts::image_text))]
pub fn put_image(alloc: Global, out: &mut Bytes, at: u64) -> Result<(), NoMemory>
    ensures { OnOk result (out.new ≡ out.old ++ image_text at) }
{
    put_number(alloc, out, b"image refused at ", at)?;
    out.extend(b"\n")
}

/// The line for a table that was recovered, with so many pages.
#[tactic(auto, unfolding(crate::specs::Texts::recovered_text))]
pub fn put_recovered(
    alloc: Global,
    out: &mut Bytes,
    table: TableId,
    pages: u64,
) -> Result<(), NoMemory>
    ensures { OnOk result (out.new ≡ out.old ++ recovered_text table pages) }
{
    put_number(alloc, out, b"recovered ", table.number())?;
    put_number(alloc, out, b" pages ", pages)?;
    out.extend(b"\n")
}
