ghost use Rattle.std.specs.Prelude.{◌≡◌, ◌≤◌, ◌++◌, codes, decimal, IfOk};
ghost use Rattle.work_maker.specs.Made.{number_of, tran_from, series, trans_per_part};

use crate::operation::draw_ops;
use draw_generator::Generator;
use ds_base::{Bytes, NoMemory};
use ds_model::{Op, OpList, Tran, TranList};
use std::alloc::Global;

/// The members that work.
pub const MEMBERS: u32 = 4;

const TRANS_PER_PART: u32 = 50;

/// Where a part stands: its phase and its member, from 1.
#[derive(Clone, Copy, Debug, PartialEq, Eq)]
pub struct Seat {
    pub phase: u32,
    pub member: u32,
}

fn name_of(alloc: Global, number: u32) -> Result<Bytes, NoMemory>
    ensures { IfOk result (λ name. name ≡ codes "t" ++ decimal number) }
{
    let mut name = Bytes::new(alloc);
    name.extend(b"t")?;
    name.extend_number(alloc, number as u64)?;
    Ok(name)
}

/// The transaction of this place of a part, from 1.
#[tactic(auto, unfolding(crate::specs::Made::tran_from))]
fn draw_tran(
    alloc: Global,
    generator: &mut Generator,
    seat: Seat,
    place: u32,
) -> Result<Tran, NoMemory>
    requires phase { (1 ≤ seat.phase) × (seat.phase ≤ 10) }
    requires member { (1 ≤ seat.member) × (seat.member ≤ 4) }
    requires place { place ≤ 50 }
    ensures { IfOk result (λ tran. tran_from seat.phase seat.member place generator.old ≡ (tran, generator.new)) }
{
    let count = 1 + generator.draw_below(4);
    let mut ops = OpList::new(alloc);
    if seat.phase == 8 && seat.member == 3 && place == 1 {
        ops.push(Op::LoseCache)?;
    }
    draw_ops(alloc, generator, &mut ops, count)?;
    let number = (MEMBERS * (seat.phase - 1) + (seat.member - 1)) * TRANS_PER_PART + place;
    let name = name_of(alloc, number)?;
    Ok(Tran {
        name,
        number,
        wait: true,
        ops,
    })
}

/// The transactions of a part.
pub fn draw_trans(
    alloc: Global,
    generator: &mut Generator,
    seat: Seat,
) -> Result<TranList, NoMemory>
    requires phase { (1 ≤ seat.phase) × (seat.phase ≤ 10) }
    requires member { (1 ≤ seat.member) × (seat.member ≤ 4) }
    ensures { IfOk result (λ trans. series (tran_from seat.phase seat.member) trans_per_part 1 generator.old ≡ (trans, generator.new)) }
{
    let mut trans = TranList::new(alloc);
    for index in 0..TRANS_PER_PART {
        trans.push(draw_tran(alloc, generator, seat, index + 1)?)?;
    }
    Ok(trans)
}
