//! Bytes for a sink.

ghost use Rattle.std.specs.Prelude.{◌≡◌};
ghost use Rattle.table_copy.specs.Looking.{Gives};
ghost use Rattle.table_image_text.specs.Image.{head_bytes};

use crate::CopyFault;
use ds_base::{Lrsn, Sink, TableId};
use std::alloc::Global;
use table_image_text::head_bytes;
use whole_streams::write_all;

/// Writes all the bytes, or a front of them where the sink fails.
pub fn give<K: Sink>(sink: &mut K, bytes: &[u8]) -> Result<(), CopyFault>
    ensures { Gives (K.taken sink.old) (K.taken sink.new) (K.faults sink.old) (K.faults sink.new) bytes.now result }
{
    match write_all(sink, bytes) {
        Ok(()) => Ok(()),
        Err(_) => Err(CopyFault::Sink),
    }
}

/// Writes the head of an image with so many pages of the heap and of the index.
pub fn give_head<K: Sink>(
    alloc: Global,
    sink: &mut K,
    table: TableId,
    lrsn: Lrsn,
    heap: u32,
    index: u32,
) -> Result<(), CopyFault>
    ensures { Gives (K.taken sink.old) (K.taken sink.new) (K.faults sink.old) (K.faults sink.new) (head_bytes table lrsn heap index) result }
{
    let head = head_bytes(alloc, table, lrsn, heap, index)?;
    give(sink, head.as_slice())
}
