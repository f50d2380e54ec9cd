//! Copies of transactions.

ghost use Rattle.std.specs.Prelude.{◌≡◌, IfOk};

use ds_base::{Bytes, NoMemory};
use ds_model::{OpList, Tran, TranList};
use std::alloc::Global;

pub fn copy_tran(alloc: Global, tran: &Tran) -> Result<Tran, NoMemory>
    ensures { IfOk result (λ copy. copy ≡ tran.now) }
{
    Ok(Tran {
        name: Bytes::from_vec(Vec::from_slice(alloc, tran.name.as_slice())?),
        number: tran.number,
        wait: tran.wait,
        ops: OpList::from_vec(Vec::from_slice(alloc, tran.ops.as_slice())?),
    })
}

pub fn copy_trans(alloc: Global, trans: &[Tran]) -> Result<TranList, NoMemory>
    ensures { IfOk result (λ copy. copy ≡ trans.now) }
{
    let mut copies = TranList::new(alloc);
    for tran in trans {
        copies.push(copy_tran(alloc, tran)?)?;
    }
    Ok(copies)
}
