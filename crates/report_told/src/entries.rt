//! The entries of a report.

ghost use Rattle.std.specs.Prelude.{◌≡◌, map, IfOk};
ghost use Rattle.ds_model.specs.declared.script.Script.{Script as AnyScript};
ghost use Rattle.ds_model.specs.declared.fate.Fate.TheVariants as fate;
ghost use Rattle.ds_model.specs.Transactions.{name_of};
ghost use Rattle.ds_model.specs.Told.{told_refusal_of, told_of, entry_of};
ghost use Rattle.report_told.specs.Names.{names_in};

use crate::names::{name_at, names_of};
use crate::reads::tell_reads;
use ds_base::{Bytes, NoMemory, Sequence, TranId};
use ds_model::{
    Cycle, Entry, Fate, NameList, Op, Reads, Refusal, ReportEntry, ReportEntryList, Script, Told,
    ToldRefusal,
};
use std::alloc::Global;

#[tactic(auto, using(crate::proofs::Naming::named))]
fn tell_name(alloc: Global, names: &[&Bytes], number: u32) -> Result<Bytes, NoMemory>
    ensures { (s : AnyScript) → map (λ n. n.now) names.now ≡ names_in s → IfOk result (λ name. name ≡ name_of s number) }
{
    name_at(alloc, names, number)
}

fn tell_cycle(alloc: Global, names: &[&Bytes], cycle: &[TranId]) -> Result<NameList, NoMemory>
    ensures { (s : AnyScript) → map (λ n. n.now) names.now ≡ names_in s → IfOk result (λ told. told ≡ map (λ t. name_of s t.number) cycle.now) }
{
    let mut told = NameList::new(alloc);
    for tran in cycle {
        told.push(tell_name(alloc, names, tran.number)?)?;
    }
    Ok(told)
}

fn tell_refusal(alloc: Global, names: &[&Bytes], refusal: Refusal) -> Result<ToldRefusal, NoMemory>
    ensures { (s : AnyScript) → map (λ n. n.now) names.now ≡ names_in s → IfOk result (λ told. told ≡ told_refusal_of s refusal) }
{
    match refusal {
        Refusal::Held { name, by } => {
            let by = tell_name(alloc, names, by.number)?;
            Ok(ToldRefusal::Held { name, by })
        }
        Refusal::Retained { name, by } => Ok(ToldRefusal::Retained { name, by }),
        Refusal::Deadlock { cycle } => {
            let cycle = tell_cycle(alloc, names, cycle.as_slice())?;
            Ok(ToldRefusal::Deadlock { cycle })
        }
        Refusal::SpaceFull { table, pages } => Ok(ToldRefusal::SpaceFull { table, pages }),
        Refusal::RecordsFull { limit } => Ok(ToldRefusal::RecordsFull { limit }),
        Refusal::LrsnEnd { at } => Ok(ToldRefusal::LrsnEnd { at }),
        Refusal::Memory => Ok(ToldRefusal::Memory),
        Refusal::Aborted => Ok(ToldRefusal::Aborted),
    }
}

fn tell_commit(alloc: Global, ops: &[Op], answered: bool, reads: Reads) -> Result<Told, NoMemory>
    ensures { (s : AnyScript) → IfOk result (λ told. told ≡ told_of s ops.now (fate.Committed answered reads)) }
{
    if answered {
        let reads = tell_reads(alloc, ops, reads)?;
        return Ok(Told::Committed { answered, reads });
    }
    Ok(Told::Committed {
        answered,
        reads: Sequence::new(alloc),
    })
}

fn tell_fate(alloc: Global, names: &[&Bytes], ops: &[Op], fate: Fate) -> Result<Told, NoMemory>
    ensures { (s : AnyScript) → map (λ n. n.now) names.now ≡ names_in s → IfOk result (λ told. told ≡ told_of s ops.now fate) }
{
    match fate {
        Fate::Committed { answered, reads } => Ok(tell_commit(alloc, ops, answered, reads)?),
        Fate::Refused(refusal) => Ok(Told::Refused(tell_refusal(alloc, names, refusal)?)),
        Fate::Stopped => Ok(Told::Stopped),
    }
}

fn tell_entry(alloc: Global, names: &[&Bytes], entry: Entry) -> Result<ReportEntry, NoMemory>
    ensures { (s : AnyScript) → map (λ n. n.now) names.now ≡ names_in s → IfOk result (λ told. told ≡ entry_of s entry) }
{
    let Entry { member, tran, fate } = entry;
    let told = tell_fate(alloc, names, tran.ops.as_slice(), fate)?;
    Ok(ReportEntry {
        name: tran.name,
        member,
        told,
    })
}

/// The entries of a report on transactions of this script.
pub fn tell_entries(
    alloc: Global,
    script: &Script,
    entries: Vec<Entry>,
) -> Result<ReportEntryList, NoMemory>
    ensures { IfOk result (λ told. told ≡ map (entry_of script.now) entries.items) }
{
    let names = names_of(alloc, script)?;
    let mut told = ReportEntryList::new(alloc);
    for entry in entries {
        told.push(tell_entry(alloc, &names, entry)?)?;
    }
    Ok(told)
}
