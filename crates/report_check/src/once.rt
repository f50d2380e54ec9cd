//! Whether each transaction of a script has its entry.

ghost use Rattle.std.specs.Prelude.{◌≡◌, ◌++◌, map, OnOk, IfOk, Decides};
ghost use Rattle.std.specs.List.{flat_map};
ghost use Rattle.ds_model.specs.Transactions.{placed, placed_part, placed_phase};
ghost use Rattle.ds_model.specs.History.{played};
ghost use Rattle.report_check.specs.Reports as reports;

use crate::numbered::by_number;
use crate::same::same_tran;
use ds_base::NoMemory;
use ds_model::{Entry, Part, Phase, Script, Tran};
use std::alloc::Global;

// A transaction behind the number of the member that plays it.
type PlacedTran<'a> = (u64, &'a Tran);

fn take_part<'a>(out: &mut Vec<PlacedTran<'a>>, part: &'a Part) -> Result<(), NoMemory>
    ensures { OnOk result (map (λ p. (p.0, p.1.now)) out.new.items ≡ map (λ p. (p.0, p.1.now)) out.old.items ++ placed_part part.now) }
{
    let member = part.member.number();
    for tran in part.trans.as_slice() {
        out.push((member, tran))?;
    }
    Ok(())
}

fn take_parts<'a>(out: &mut Vec<PlacedTran<'a>>, parts: &'a [Part]) -> Result<(), NoMemory>
    ensures { OnOk result (map (λ p. (p.0, p.1.now)) out.new.items ≡ map (λ p. (p.0, p.1.now)) out.old.items ++ flat_map placed_part parts.now) }
{
    for part in parts {
        take_part(out, part)?;
    }
    Ok(())
}

fn take_phases<'a>(out: &mut Vec<PlacedTran<'a>>, phases: &'a [Phase]) -> Result<(), NoMemory>
    ensures { OnOk result (map (λ p. (p.0, p.1.now)) out.new.items ≡ map (λ p. (p.0, p.1.now)) out.old.items ++ flat_map placed_phase phases.now) }
{
    for phase in phases {
        take_parts(out, phase.parts.as_slice())?;
    }
    Ok(())
}

// The transactions of a script with their members, in the order of the script.
fn flatten<'a>(alloc: Global, script: &'a Script) -> Result<Vec<PlacedTran<'a>>, NoMemory>
    ensures { IfOk result (λ out. map (λ p. (p.0, p.1.now)) out.items ≡ placed script.now) }
{
    let mut out = Vec::new(alloc);
    take_phases(&mut out, script.phases.as_slice())?;
    Ok(out)
}

// The entries in the order of their transactions' numbers.
fn sorted<'a>(alloc: Global, entries: &'a [Entry]) -> Result<Vec<(u128, &'a Entry)>, NoMemory>
    ensures { IfOk result (λ sorted. map (λ p. played p.1.now) sorted.items ≡ reports.by_number (map played entries.now)) }
{
    let mut items = Vec::new(alloc);
    for entry in entries {
        items.push((u128::from(entry.tran.number), entry))?;
    }
    by_number(alloc, items)
}

fn same_played(entry: &Entry, member: u64, tran: &Tran) -> bool
    ensures { Decides result (played entry.now ≡ (member, tran.now)) }
{
    entry.member.number() == member && same_tran(&entry.tran, tran)
}

fn same_trans(entries: &[(u128, &Entry)], trans: &[PlacedTran]) -> bool
    ensures { Decides result (map (λ p. played p.1.now) entries.now ≡ map (λ p. (p.0, p.1.now)) trans.now) }
{
    if entries.len() != trans.len() {
        return false;
    }
    for i in 0..trans.len() {
        if !same_played(entries[i].1, trans[i].0, trans[i].1) {
            return false;
        }
    }
    true
}

/// Whether the entries are the script's transactions, each with the member of its part, each once and no other.
pub fn each_once(alloc: Global, script: &Script, entries: &[Entry]) -> Result<bool, NoMemory>
    ensures { IfOk result (λ once. Decides once (reports.by_number (map played entries.now) ≡ placed script.now)) }
{
    let trans = flatten(alloc, script)?;
    let entries = sorted(alloc, entries)?;
    Ok(same_trans(&entries, &trans))
}
