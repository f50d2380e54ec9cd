//! Why a transaction was refused, in words.

ghost use Rattle.std.specs.Prelude.{◌≡◌, ◌++◌, OnOk, IfOk};
ghost use Rattle.std.specs.List.{flat_map, list_all};
ghost use Rattle.ds_model.specs.ReportText.{cycle_text, refusal_text};
ghost use Rattle.report_line.specs.Lines.{is_refusal};
ghost use Rattle.report_line.specs.Lines as spec;
ghost use Rattle.report_line.specs.Reading as said;

use crate::lock::{by_place, lock_in, put_lock};
use crate::spell::{put_lrsn, put_number, put_numbers};
use crate::values::{count_at, is_name, lrsn_at, member_at, name_at, table_at};
use crate::words::{word, words_from};
use ds_base::{Bytes, NoMemory};
use ds_model::ToldRefusal;
use std::alloc::Global;

fn put_cycle(out: &mut Bytes, cycle: &[Bytes]) -> Result<(), NoMemory>
    ensures { OnOk result (out.new ≡ out.old ++ flat_map cycle_text cycle.now) }
{
    for name in cycle {
        out.extend(b" ")?;
        out.extend(name.as_slice())?;
    }
    Ok(())
}

/// Adds the cause of a refusal.
pub fn put_refusal(alloc: Global, out: &mut Bytes, refusal: &ToldRefusal) -> Result<(), NoMemory>
    ensures { OnOk result (out.new ≡ out.old ++ refusal_text refusal.now) }
{
    match refusal {
        ToldRefusal::Held { name, by } => {
            out.extend(b"held ")?;
            put_lock(alloc, out, name)?;
            out.extend(b" by ")?;
            out.extend(by.as_slice())
        }
        ToldRefusal::Retained { name, by } => {
            out.extend(b"retained ")?;
            put_lock(alloc, out, name)?;
            put_number(alloc, out, b" by M", by.number())
        }
        ToldRefusal::Deadlock { cycle } => {
            out.extend(b"deadlock")?;
            put_cycle(out, cycle.as_slice())
        }
        ToldRefusal::SpaceFull { table, pages } => put_numbers(
            alloc,
            out,
            b"space-full ",
            table.number(),
            *pages as u64,
        ),
        ToldRefusal::RecordsFull { limit } => put_number(
            alloc,
            out,
            b"records-full ",
            *limit as u64,
        ),
        ToldRefusal::LrsnEnd { at } => put_lrsn(alloc, out, b"lrsn-end ", at.number()),
        ToldRefusal::Memory => out.extend(b"memory"),
        ToldRefusal::Aborted => out.extend(b"aborted"),
    }
}

fn held(alloc: Global, line: &[u8]) -> Result<Option<ToldRefusal>, NoMemory>
    ensures { IfOk result (λ found. found ≡ said.kept (is_refusal (said.held_said line.now)) (said.held_said line.now)) }
{
    let Some(name) = lock_in(line) else {
        return Ok(None);
    };
    match name_at(alloc, line, by_place(line))? {
        Some(by) => Ok(Some(ToldRefusal::Held { name, by })),
        None => Ok(None),
    }
}

fn retained(line: &[u8]) -> Option<ToldRefusal>
    ensures { result ≡ said.kept (is_refusal (said.retained_said line.now)) (said.retained_said line.now) }
{
    Some(ToldRefusal::Retained {
        name: lock_in(line)?,
        by: member_at(line, by_place(line))?,
    })
}

fn are_names(names: &[Bytes]) -> bool
    ensures { result ≡ list_all spec.is_name names.now }
{
    names.iter().all(|name| is_name(name.as_slice()))
}

fn deadlock(alloc: Global, line: &[u8]) -> Result<Option<ToldRefusal>, NoMemory>
    ensures { IfOk result (λ found. found ≡ said.kept (is_refusal (said.deadlock_said line.now)) (said.deadlock_said line.now)) }
{
    let cycle = words_from(alloc, line, 4)?;
    if !cycle.is_empty() && are_names(cycle.as_slice()) {
        Ok(Some(ToldRefusal::Deadlock { cycle }))
    } else {
        Ok(None)
    }
}

fn space_full(line: &[u8]) -> Option<ToldRefusal>
    ensures { result ≡ said.kept (is_refusal (said.space_full_said line.now)) (said.space_full_said line.now) }
{
    Some(ToldRefusal::SpaceFull {
        table: table_at(line, 4)?,
        pages: count_at(line, 5)?,
    })
}

/// The cause of a refusal, or `None` where it may not stand.
#[tactic(auto, unfolding(crate::specs::Reading::refusal_said))]
pub fn refusal_in(alloc: Global, line: &[u8]) -> Result<Option<ToldRefusal>, NoMemory>
    ensures { IfOk result (λ found. found ≡ said.kept (is_refusal (said.refusal_said line.now)) (said.refusal_said line.now)) }
{
    let kind = word(line, 3);
    if kind == b"held".as_slice() {
        held(alloc, line)
    } else if kind == b"retained".as_slice() {
        Ok(retained(line))
    } else if kind == b"deadlock".as_slice() {
        deadlock(alloc, line)
    } else if kind == b"space-full".as_slice() {
        Ok(space_full(line))
    } else if kind == b"records-full".as_slice() {
        Ok(count_at(line, 4).map(|limit| ToldRefusal::RecordsFull { limit }))
    } else if kind == b"lrsn-end".as_slice() {
        Ok(lrsn_at(line, 4).map(|at| ToldRefusal::LrsnEnd { at }))
    } else if kind == b"memory".as_slice() {
        Ok(Some(ToldRefusal::Memory))
    } else {
        Ok(Some(ToldRefusal::Aborted))
    }
}
