//! The head of an image.

ghost use Rattle.std.specs.Prelude.{◌≡◌, ◌++◌, OnOk, OnErr, IfOk};
ghost use Rattle.byteorder.specs.Endian.{big_bytes};
ghost use Rattle.ds_base.specs.Ids.{lrsn_width};
ghost use Rattle.table_image_text.specs.Image.{head_bytes};

use ds_base::{Bytes, LRSN_WIDTH, Lrsn, NoMemory, TableId};
use std::alloc::Global;

/// How many bytes stand before the pages.
pub const HEAD_SIZE: usize = 24;

/// What every image begins with.
pub const MARK: [u8; 4] = *b"DSIC";

/// The version in which images are written.
pub const VERSION: u8 = 1;

fn put_number(head: &mut Bytes, number: u128) -> Result<(), NoMemory>
    ensures { OnOk result (head.new ≡ head.old ++ big_bytes lrsn_width number) }
{
    let bytes = number.to_be_bytes();
    head.extend(&bytes[bytes.len() - LRSN_WIDTH as usize..])?;
    Ok(())
}

fn put_lrsn(head: &mut Bytes, lrsn: Lrsn) -> Result<(), NoMemory>
    ensures { OnOk result (head.new ≡ head.old ++ big_bytes lrsn_width lrsn) }
{
    put_number(head, lrsn.number())
}

fn put_count(head: &mut Bytes, count: u32) -> Result<(), NoMemory>
    ensures { OnOk result (head.new ≡ head.old ++ big_bytes 4 count) }
{
    head.extend(&count.to_be_bytes())
}

/// The head of an image of the table, with a number (LRSN) and so many pages of the heap and of the index.
#[tactic(auto, unfolding(crate::specs::Image::head_bytes))]
pub fn head_bytes(
    alloc: Global,
    table: TableId,
    lrsn: Lrsn,
    heap: u32,
    index: u32,
) -> Result<Bytes, NoMemory>
    ensures { IfOk result (λ head. head ≡ head_bytes table lrsn heap index) }
{
    let mut head = Bytes::new(alloc);
    head.extend(&MARK)?;
    head.extend(&[VERSION, table.number() as u8])?;
    put_lrsn(&mut head, lrsn)?;
    put_count(&mut head, heap)?;
    put_count(&mut head, index)?;
    Ok(head)
}
