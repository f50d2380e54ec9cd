use crate::trans::{part, script_of, tran_of};
use ds_base::Sequence;
use ds_model::{Entry, Fate, Op, OpList, Refusal, Script, Tran};
use script_fates::{Cause, Fates};
use std::alloc::Global;
use std::test::Fail;

fn tran(alloc: Global, number: u32) -> Result<Tran, Fail> {
    let mut ops = OpList::new(alloc);
    ops.push(Op::Abort)?;
    tran_of(alloc, number, ops)
}

fn script(alloc: Global) -> Result<Script, Fail> {
    let mut trans = Vec::new(alloc);
    for number in 1..4u32 {
        trans.push(tran(alloc, number)?)?;
    }
    script_of(alloc, vec![in alloc; part(1, trans)?]?)
}

/// Whether these are the fates in the order in which they were told: a refusal with its cause, an answered commit, and a stop.
fn are_told(entries: &[Entry], causes: &[Cause]) -> bool {
    let [first, second, third] = entries else {
        return false;
    };
    let [cause] = causes else {
        return false;
    };
    cause.place == 7
        && matches!(&first.fate, Fate::Refused(_))
        && matches!(&second.fate, Fate::Committed { answered: true, .. })
        && matches!(&third.fate, Fate::Stopped)
}

/// Whether these fates are told.
fn tells(alloc: Global) -> Result<bool, Fail> {
    let script = script(alloc)?;
    let mut fates = Fates::new(alloc, &script)?;
    fates.refuse(3, Refusal::Aborted, 7);
    fates.commit(1, Sequence::new(alloc));
    fates.commit(3, Sequence::new(alloc));
    fates.answer(1);
    fates.answer(2);
    fates.stop_all();
    let (entries, causes) = fates.into_parts();
    Ok(are_told(&entries, &causes))
}

#[test]
fn each_transaction_has_one_fate(rt: HostRuntime) -> Result<(), Fail> {
    assert!(rt; tells(rt.alloc())?);
    Ok(())
}
