ghost use Rattle.std.specs.Prelude.{◌≡◌, ◌≤◌, IfOk};
ghost use Rattle.work_maker.specs.Made.{restarts, failure, part_from, phase_from, series, members, made};

use crate::transaction::{MEMBERS, Seat, draw_trans};
use draw_generator::Generator;
use ds_base::{MemberId, NoMemory};
use ds_model::{FailAt, Part, PartList, Phase, PhaseList, Script};
use std::alloc::Global;

const PHASES: u32 = 10;

/// The phase and the member that fails in it, at one of its commits.
const FAILURE: Seat = Seat {
    phase: 4,
    member: 2,
};

/// The phase and the member that restarts in it.
const RESTART: Seat = Seat {
    phase: 6,
    member: 2,
};

#[tactic(auto, unfolding(crate::specs::Made::part_from))]
fn draw_part(alloc: Global, generator: &mut Generator, seat: Seat) -> Result<Part, NoMemory>
    requires phase { (1 ≤ seat.phase) × (seat.phase ≤ 10) }
    requires member { (1 ≤ seat.member) × (seat.member ≤ 4) }
    ensures { IfOk result (λ part. part_from seat.phase seat.member generator.old ≡ (part, generator.new)) }
{
    let Some(member) = MemberId::new(seat.member as u64) else {
        unreachable!()
    };
    let fail = if seat == FAILURE {
        Some(FailAt::Commit(20))
    } else {
        None
    };
    Ok(Part {
        member,
        restart: seat == RESTART,
        fail,
        trans: draw_trans(alloc, generator, seat)?,
    })
}

#[tactic(auto, unfolding(crate::specs::Made::phase_from))]
fn draw_phase(alloc: Global, generator: &mut Generator, phase: u32) -> Result<Phase, NoMemory>
    requires { (1 ≤ phase) × (phase ≤ 10) }
    ensures { IfOk result (λ made. phase_from phase generator.old ≡ (made, generator.new)) }
{
    Ok(Phase {
        groupfails: 0,
        parts: draw_parts(alloc, generator, phase)?,
    })
}

fn draw_parts(alloc: Global, generator: &mut Generator, phase: u32) -> Result<PartList, NoMemory>
    requires { (1 ≤ phase) × (phase ≤ 10) }
    ensures { IfOk result (λ parts. series (part_from phase) members 1 generator.old ≡ (parts, generator.new)) }
{
    let mut parts = PartList::new(alloc);
    for index in 0..MEMBERS {
        let seat = Seat {
            phase,
            member: index + 1,
        };
        parts.push(draw_part(alloc, generator, seat)?)?;
    }
    Ok(parts)
}

fn draw_phases(alloc: Global, generator: &mut Generator) -> Result<PhaseList, NoMemory>
    ensures { IfOk result (λ phases. series phase_from 10 1 generator.old ≡ (phases, generator.new)) }
{
    let mut phases = PhaseList::new(alloc);
    for index in 0..PHASES {
        phases.push(draw_phase(alloc, generator, index + 1)?)?;
    }
    Ok(phases)
}

/// The script of this number: 2,000 waiting transactions in 10 phases, each with parts of members 1 to 4.
///
/// Member 2 fails in phase 4 at its 20th commit and restarts in phase 6. The cache structure is lost in phase 8, in the
/// first transaction of member 3.
#[tactic(auto, unfolding(crate::specs::Made::made))]
pub fn make_script(alloc: Global, n: u64) -> Result<Script, NoMemory>
    ensures { IfOk result (λ script. script ≡ made n) }
{
    let mut generator = Generator::new(n);
    Ok(Script {
        phases: draw_phases(alloc, &mut generator)?,
        groupfails: 0,
    })
}
