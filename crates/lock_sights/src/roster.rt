//! The transactions of a script in a list.

ghost use Rattle.std.specs.Prelude.{◌≡◌, ◌++◌, map, slice_get, option_map, IfOk, OnOk};
ghost use Rattle.lock_sights.specs.Rosters as spec;
ghost use Rattle.lock_sights.specs.Rosters.{tran_at, trans_in, trans_in_part, trans_in_phase};

use ds_base::NoMemory;
use ds_model::{Part, Phase, Script, Tran};
use std::alloc::Global;

fn put_part<'a>(out: &mut Vec<&'a Tran>, part: &'a Part) -> Result<(), NoMemory>
    ensures { OnOk result (map (λ t. t.now) out.new.items ≡ map (λ t. t.now) out.old.items ++ trans_in_part part.now) }
{
    for tran in part.trans.as_slice() {
        out.push(tran)?;
    }
    Ok(())
}

fn put_phase<'a>(out: &mut Vec<&'a Tran>, phase: &'a Phase) -> Result<(), NoMemory>
    ensures { OnOk result (map (λ t. t.now) out.new.items ≡ map (λ t. t.now) out.old.items ++ trans_in_phase phase.now) }
{
    for part in phase.parts.as_slice() {
        put_part(out, part)?;
    }
    Ok(())
}

/// All transactions of a script in their order, by their numbers less one.
pub fn roster_of<'a>(alloc: Global, script: &'a Script) -> Result<Vec<&'a Tran>, NoMemory>
    ensures { IfOk result (λ all. map (λ t. t.now) all.items ≡ trans_in script.now) }
{
    let mut out = Vec::new(alloc);
    for phase in script.phases.as_slice() {
        put_phase(&mut out, phase)?;
    }
    Ok(out)
}

fn get_tran<'a>(all: &[&'a Tran], at: usize) -> Option<&'a Tran>
    ensures { option_map (λ t. t.now) result ≡ slice_get (map (λ t. t.now) all.now) at }
{
    if at < all.len() { Some(all[at]) } else { None }
}

/// The transaction with this number, counted from 1.
pub fn tran_at<'a>(all: &[&'a Tran], number: u32) -> Option<&'a Tran>
    ensures { option_map (λ t. t.now) result ≡ tran_at (map (λ t. t.now) all.now) number }
{
    if 1 <= number {
        get_tran(all, number as usize - 1)
    } else {
        None
    }
}

// Whether the transaction with this number has this name.
fn is_named(all: &[&Tran], name: &[u8], number: u32) -> bool
    ensures { result ≡ spec.is_named (map (λ t. t.now) all.now) name.now number }
{
    match tran_at(all, number) {
        Some(tran) => tran.name.as_slice() == name,
        None => false,
    }
}

fn or_number(first: Option<u32>, is_here: bool, other: u32) -> Option<u32>
    ensures { result ≡ spec.or_number first is_here other }
{
    match first {
        Some(number) => Some(number),
        None if is_here => Some(other),
        None => None,
    }
}

/// The number of the first transaction of this name.
#[tactic(auto, using(crate::proofs::Named::named_more), unfolding(crate::specs::Rosters::named_within))]
pub fn number_named(all: &[&Tran], name: &[u8]) -> Option<u32>
    ensures { result ≡ spec.number_named (map (λ t. t.now) all.now) name.now }
{
    let most = all.len().min(u32::MAX as usize) as u32;
    let mut number = None;
    for at in 0..most {
        number = or_number(number, is_named(all, name, at + 1), at + 1);
    }
    number
}
