ghost use Rattle.std.specs.Prelude.{◌≡◌, ◌+◌, ◌%◌, ◌++◌, ◌≤◌, IfOk, OnOk};
ghost use Rattle.draw_generator.specs.Draws.{drawn, next_state};
ghost use Rattle.work_maker.specs.Made.{value_of, op_from, series};

use draw_generator::Generator;
use ds_base::{Bytes, NoMemory, TableId, Value};
use ds_model::{Op, OpList};
use std::alloc::Global;

fn draw_value(alloc: Global, generator: &mut Generator) -> Result<Value, NoMemory>
    ensures value { IfOk result (λ value. value ≡ value_of (drawn generator.old % 1000000)) }
    ensures state { generator.new ≡ next_state generator.old }
{
    let number = generator.draw_below(1_000_000);
    let mut text = Bytes::new(alloc);
    text.extend(b"v")?;
    text.extend_number(alloc, number)?;
    let Some(value) = Value::new(alloc, text.as_slice())? else {
        unreachable!()
    };
    Ok(value)
}

fn draw_table(generator: &mut Generator) -> TableId
    ensures table { result ≡ 1 + drawn generator.old % 4 }
    ensures state { generator.new ≡ next_state generator.old }
{
    let Some(table) = TableId::new(1 + generator.draw_below(4)) else {
        unreachable!()
    };
    table
}

#[tactic(auto, unfolding(crate::specs::Made::op_from))]
fn draw_op(alloc: Global, generator: &mut Generator) -> Result<Op, NoMemory>
    ensures { IfOk result (λ op. op_from generator.old ≡ (op, generator.new)) }
{
    let kind = generator.draw_below(4);
    let table = draw_table(generator);
    let key = generator.draw_below(1000);
    Ok(match kind {
        0 | 1 => Op::Get { table, key },
        2 => {
            let value = draw_value(alloc, generator)?;
            Op::Put { table, key, value }
        }
        _ => Op::Del { table, key },
    })
}

/// Adds so many operations.
pub fn draw_ops(
    alloc: Global,
    generator: &mut Generator,
    ops: &mut OpList,
    count: u64,
) -> Result<(), NoMemory>
    ensures ops { OnOk result (ops.new ≡ ops.old ++ (series (λ _. op_from) count 1 generator.old).0) }
    ensures state { OnOk result (generator.new ≡ (series (λ _. op_from) count 1 generator.old).1) }
{
    for _ in 0..count {
        ops.push(draw_op(alloc, generator)?)?;
    }
    Ok(())
}
