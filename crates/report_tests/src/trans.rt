//! Transactions, and scripts of one phase.
use ds_base::{Bytes, MemberId, NoMemory, Sequence, TableId, Value};
use ds_model::{Op, OpList, Part, Phase, Script, Tran};
use std::alloc::Global;
use std::test::Fail;

pub fn table() -> TableId {
    TableId::new(1).unwrap()
}

pub fn member(number: u64) -> Result<MemberId, Fail> {
    Ok(MemberId::new(number).ok_or("a member")?)
}

pub fn value(alloc: Global) -> Result<Value, NoMemory> {
    Value::new(alloc, b"v")?.ok_or(NoMemory)
}

/// A transaction that does this.
pub fn tran_of(alloc: Global, number: u32, ops: OpList) -> Result<Tran, Fail> {
    Ok(Tran {
        name: Bytes::from_vec(b"t".to_vec(alloc)?),
        number,
        wait: true,
        ops,
    })
}

/// Transaction 1 puts a row, 2 reads it and puts another, and 3 asks for its abort.
pub fn tran(alloc: Global, number: u32) -> Result<Tran, Fail> {
    let mut ops = OpList::new(alloc);
    if number == 2 {
        ops.push(Op::Get {
            table: table(),
            key: 0,
        })?;
    }
    ops.push(Op::Put {
        table: table(),
        key: u64::from(number),
        value: value(alloc)?,
    })?;
    if number == 3 {
        ops.push(Op::Abort)?;
    }
    tran_of(alloc, number, ops)
}

pub fn part(number: u64, trans: Vec<Tran>) -> Result<Part, Fail> {
    Ok(Part {
        member: member(number)?,
        restart: false,
        fail: None,
        trans: Sequence::from_vec(trans),
    })
}

/// A script of one phase.
pub fn script_of(alloc: Global, parts: Vec<Part>) -> Result<Script, Fail> {
    let phase = Phase {
        groupfails: 0,
        parts: Sequence::from_vec(parts),
    };
    Ok(Script {
        phases: Sequence::from_vec(vec![in alloc; phase]?),
        groupfails: 0,
    })
}
