//! Frames after the replies about them.

ghost use Rattle.std.specs.Prelude.{◌≡◌, true};
ghost use Rattle.member_needs.specs.Given.{after_filled};
ghost use Rattle.member_effects.specs.declared.told.Told.TheVariants as told;
ghost use Rattle.member_effects.specs.Frames.{parked_told, read_told, empty_after, read_after, full_in, full_heap, full_at, valid_after, valid_told, tested_after, tested_told, written_told, written_after, unregistered_after};

use crate::told::Told;
use ds_base::TableId;
use ds_model::Refusal;
use facility::Reply;
use member_needs::{Marks, Owner};
use page_format::Page;
use page_plans::{Action, Look, look};

// Where the cache is lost or has no room.
fn parked(reply: &Reply) -> Told
    ensures { result ≡ parked_told reply.now }
{
    match reply {
        Reply::Lost => Told::Lost,
        Reply::CacheFull => Told::CacheFull,
        _ => Told::Stepped,
    }
}

// The frame is to be filled, unless it is changed.
fn empty(marks: &mut Marks, at: u16)
    ensures { marks.new ≡ empty_after marks.old at }
{
    let is_changed = marks.frame(at).changed;
    marks.set_filled(at, is_changed);
}

/// The reply to `read`. A changed frame keeps its bytes.
pub fn read(marks: &mut Marks, at: u16, reply: &Reply) -> Told
    ensures told { result ≡ read_told reply.now }
    ensures after { marks.new ≡ read_after marks.old at reply.now }
{
    match reply {
        Reply::Found => {
            marks.set_registered(at, true);
            marks.set_filled(at, true);
            Told::Filled
        }
        Reply::NoData => {
            marks.set_registered(at, true);
            empty(marks, at);
            Told::ToFill
        }
        _ => parked(reply),
    }
}

/// The frame was filled from the disk.
pub fn page_read(marks: &mut Marks, at: u16) -> Told
    ensures told { result ≡ told.Filled }
    ensures after { marks.new ≡ after_filled marks.old at true }
{
    marks.set_filled(at, true);
    Told::Filled
}

fn full_in(found: Look) -> Option<u32>
    ensures { result ≡ full_in found }
{
    match found {
        Look::Full { pages } => Some(pages),
        _ => None,
    }
}

// How many pages the heap has whose header lies in the frame, if it has all that it may have and no slot is left.
fn full_heap(pages: &[Page], at: u16, table: TableId, limit: u32) -> Option<u32>
    ensures { result ≡ full_heap pages.now at table limit }
{
    let Some(page) = pages.get(at as usize) else {
        return None;
    };
    let gives = Action::GiveSlot {
        table,
        key: 0,
        leaf: 0,
    };
    full_in(look(&gives, limit, 0, None, page))
}

fn full_at(pages: &[Page], at: u16, gives: Option<TableId>, limit: u32) -> Option<(TableId, u32)>
    ensures { result ≡ full_at pages.now at gives limit }
{
    let Some(table) = gives else {
        return None;
    };
    match full_heap(pages, at, table, limit) {
        Some(pages) => Some((table, pages)),
        None => None,
    }
}

// A valid page. A heap without a slot refuses the transaction of the slot.
fn valid(marks: &mut Marks, at: u16, slot: u8, full: Option<(TableId, u32)>, place: u64) -> Told
    ensures told { result ≡ valid_told at full }
    ensures after { marks.new ≡ valid_after marks.old slot place full }
{
    match full {
        Some((table, pages)) => {
            let refusal = Refusal::SpaceFull { table, pages };
            marks.offer(&Owner::Slot(slot), refusal, place);
            Told::Refused
        }
        None => Told::Valid { frame: at },
    }
}

/// The reply to `test`.
pub fn tested(
    marks: &mut Marks,
    pages: &[Page],
    at: u16,
    slot: u8,
    gives: Option<TableId>,
    limit: u32,
    reply: &Reply,
    place: u64,
) -> Told
    ensures told { result ≡ tested_told pages.now at gives limit reply.now }
    ensures after { marks.new ≡ tested_after marks.old pages.now at slot gives limit reply.now place }
{
    match reply {
        Reply::Valid => {
            marks.set_registered(at, true);
            valid(marks, at, slot, full_at(pages, at, gives, limit), place)
        }
        _ => {
            marks.set_registered(at, false);
            Told::Invalid
        }
    }
}

/// The reply to `write`.
pub fn written(marks: &mut Marks, at: u16, reply: &Reply) -> Told
    ensures told { result ≡ written_told reply.now }
    ensures after { marks.new ≡ written_after marks.old at reply.now }
{
    match reply {
        Reply::Written => {
            marks.set_written(at);
            Told::Written
        }
        _ => parked(reply),
    }
}

/// The reply to `unregister`.
pub fn unregistered(marks: &mut Marks, at: u16, reply: &Reply) -> Told
    ensures told { result ≡ told.Stepped }
    ensures after { marks.new ≡ unregistered_after marks.old at reply.now }
{
    if let Reply::Done = reply {
        marks.unregister(at);
    }
    Told::Stepped
}
