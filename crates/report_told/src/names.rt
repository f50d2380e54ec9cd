//! The names of a script's transactions.

ghost use Rattle.std.specs.Prelude.{◌≡◌, ◌++◌, ◌-◌, [], map, slice_index_or, OnOk, IfOk};
ghost use Rattle.std.specs.List.{flat_map};
ghost use Rattle.report_told.specs.Names.{names_in_part, names_in_phase, names_in};

use ds_base::{Bytes, NoMemory};
use ds_model::{Part, Phase, Script};
use std::alloc::Global;

fn put_part<'a>(names: &mut Vec<&'a Bytes>, part: &'a Part) -> Result<(), NoMemory>
    ensures { OnOk result (map (λ n. n.now) names.new.items ≡ map (λ n. n.now) names.old.items ++ names_in_part part.now) }
{
    for tran in part.trans.as_slice() {
        names.push(&tran.name)?;
    }
    Ok(())
}

fn put_phase<'a>(names: &mut Vec<&'a Bytes>, phase: &'a Phase) -> Result<(), NoMemory>
    ensures { OnOk result (map (λ n. n.now) names.new.items ≡ map (λ n. n.now) names.old.items ++ names_in_phase phase.now) }
{
    for part in phase.parts.as_slice() {
        put_part(names, part)?;
    }
    Ok(())
}

/// The names of all transactions in the order of the script.
pub fn names_of<'a>(alloc: Global, script: &'a Script) -> Result<Vec<&'a Bytes>, NoMemory>
    ensures { IfOk result (λ names. map (λ n. n.now) names.items ≡ names_in script.now) }
{
    let mut names = Vec::new(alloc);
    for phase in script.phases.as_slice() {
        put_phase(&mut names, phase)?;
    }
    Ok(names)
}

pub fn copy_name(alloc: Global, name: &Bytes) -> Result<Bytes, NoMemory>
    ensures { IfOk result (λ copy. copy ≡ name.now) }
{
    Ok(Bytes::from_vec(Vec::from_slice(alloc, name.as_slice())?))
}

/// A copy of the name of the transaction with this number, counted from 1; no bytes where there is none.
pub fn name_at(alloc: Global, names: &[&Bytes], number: u32) -> Result<Bytes, NoMemory>
    ensures { IfOk result (λ name. name ≡ slice_index_or (map (λ n. n.now) names.now) (number - 1) []) }
{
    match names.get(number.saturating_sub(1) as usize) {
        Some(name) => copy_name(alloc, name),
        None => Ok(Bytes::new(alloc)),
    }
}
