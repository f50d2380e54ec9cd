//! The names of locks.

ghost use Rattle.std.specs.Prelude.{◌≡◌, ◌++◌, OnOk};
ghost use Rattle.ds_model.specs.ReportText.{lock_text};
ghost use Rattle.report_line.specs.Lines.{is_lock};
ghost use Rattle.report_line.specs.Reading as said;

use crate::spell::{put_number, put_numbers, put_spot};
use crate::values::{count_at, number_at, short_at, table_at};
use crate::words::word;
use ds_base::{Bytes, NoMemory, PageId};
use ds_model::Name;
use std::alloc::Global;

/// Adds the name of a lock.
pub fn put_lock(alloc: Global, out: &mut Bytes, name: &Name) -> Result<(), NoMemory>
    ensures { OnOk result (out.new ≡ out.old ++ lock_text name.now) }
{
    match name {
        Name::Space(table) => put_number(alloc, out, b"space ", table.number()),
        Name::Row(table, key) => put_spot(alloc, out, b"row", *table, *key),
        Name::Page(page) => put_numbers(alloc, out, b"page ", page.set as u64, page.number as u64),
        Name::Set(set) => put_number(alloc, out, b"set ", *set as u64),
    }
}

fn page_at(line: &[u8]) -> Option<Name>
    ensures { result ≡ said.kept (is_lock (said.page_said line.now)) (said.page_said line.now) }
{
    Some(Name::Page(PageId {
        set: short_at(line, 5)?,
        number: count_at(line, 6)?,
    }))
}

/// The lock that a refusal names.
#[tactic(auto, unfolding(crate::specs::Reading::lock_said))]
pub fn lock_in(line: &[u8]) -> Option<Name>
    ensures { result ≡ said.kept (is_lock (said.lock_said line.now)) (said.lock_said line.now) }
{
    let kind = word(line, 4);
    if kind == b"space".as_slice() {
        Some(Name::Space(table_at(line, 5)?))
    } else if kind == b"row".as_slice() {
        Some(Name::Row(table_at(line, 5)?, number_at(line, 6)))
    } else if kind == b"page".as_slice() {
        page_at(line)
    } else {
        Some(Name::Set(short_at(line, 5)?))
    }
}

/// The place of the word that says who holds that lock.
pub fn by_place(line: &[u8]) -> usize
    ensures { result ≡ said.by_place line.now }
{
    let kind = word(line, 4);
    if kind == b"row".as_slice() || kind == b"page".as_slice() {
        8
    } else {
        7
    }
}
