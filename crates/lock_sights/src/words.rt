//! Words for locks, modes and transactions.

ghost use Rattle.std.specs.Prelude.{◌≡◌, ◌++◌, map, OnOk, codes};
ghost use Rattle.ds_model.specs.ReportText.{lock_text, page_text};
ghost use Rattle.ds_model.specs.ScriptText.{spot_text};
ghost use Rattle.lock_sights.specs.Lines as spec;

use crate::roster::tran_at;
use ds_base::{Bytes, Key, NoMemory, PageId, TableId, TranId};
use ds_model::{Name, Tran};
use lock_names::Mode;
use std::alloc::Global;

/// Adds a text and the digits of a number.
pub fn put_number(alloc: Global, out: &mut Bytes, text: &[u8], number: u64) -> Result<(), NoMemory>
    ensures { OnOk result (out.new ≡ out.old ++ spec.counted text.now number) }
{
    out.extend(text)?;
    out.extend_number(alloc, number)
}

fn put_row(alloc: Global, out: &mut Bytes, table: TableId, key: Key) -> Result<(), NoMemory>
    ensures { OnOk result (out.new ≡ out.old ++ spot_text (codes "row") table key) }
{
    put_number(alloc, out, b"row ", table.number())?;
    put_number(alloc, out, b" ", key)
}

fn put_page(alloc: Global, out: &mut Bytes, page: PageId) -> Result<(), NoMemory>
    ensures { OnOk result (out.new ≡ out.old ++ page_text page) }
{
    put_number(alloc, out, b"page ", page.set as u64)?;
    put_number(alloc, out, b" ", page.number as u64)
}

/// Adds the name of a lock.
pub fn put_lock(alloc: Global, out: &mut Bytes, name: &Name) -> Result<(), NoMemory>
    ensures { OnOk result (out.new ≡ out.old ++ lock_text name.now) }
{
    match name {
        Name::Space(table) => put_number(alloc, out, b"space ", table.number()),
        Name::Row(table, key) => put_row(alloc, out, *table, *key),
        Name::Page(page) => put_page(alloc, out, *page),
        Name::Set(set) => put_number(alloc, out, b"set ", *set as u64),
    }
}

fn mode_word(mode: Mode) -> &'static [u8]
    ensures { result.now ≡ spec.mode_word mode }
{
    match mode {
        Mode::IS => b"IS",
        Mode::IX => b"IX",
        Mode::S => b"S",
        Mode::U => b"U",
        Mode::SIX => b"SIX",
        Mode::X => b"X",
    }
}

/// Adds a mode.
#[tactic(auto, unfolding(crate::specs::Lines::in_mode))]
pub fn put_mode(out: &mut Bytes, mode: Mode) -> Result<(), NoMemory>
    ensures { OnOk result (out.new ≡ out.old ++ spec.in_mode mode) }
{
    out.extend(b" in ")?;
    out.extend(mode_word(mode))
}

/// Adds the name of a transaction; of a rollback that a restart left, which has no number, what it is.
pub fn put_tran(out: &mut Bytes, all: &[&Tran], tran: &TranId) -> Result<(), NoMemory>
    ensures { OnOk result (out.new ≡ out.old ++ spec.tran_text (map (λ t. t.now) all.now) tran.now) }
{
    match tran_at(all, tran.number) {
        Some(tran) => out.extend(tran.name.as_slice()),
        None => out.extend(b"a rollback"),
    }
}

/// Adds the name of a transaction and its member.
#[tactic(auto, unfolding(crate::specs::Lines::of_member))]
pub fn put_of_member(
    alloc: Global,
    out: &mut Bytes,
    all: &[&Tran],
    tran: &TranId,
) -> Result<(), NoMemory>
    ensures { OnOk result (out.new ≡ out.old ++ spec.of_member (map (λ t. t.now) all.now) tran.now) }
{
    put_tran(out, all, tran)?;
    put_number(alloc, out, b" of member ", tran.member.number())
}
