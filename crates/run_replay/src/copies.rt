//! Copies of scripts: a group takes its own.

ghost use Rattle.std.specs.Prelude.{◌≡◌, IfOk};

use ds_base::NoMemory;
use ds_model::{Part, PartList, Phase, PhaseList, Script};
use script_fates::copy_trans;
use std::alloc::Global;

fn copy_part(alloc: Global, part: &Part) -> Result<Part, NoMemory>
    ensures { IfOk result (λ copy. copy ≡ part.now) }
{
    Ok(Part {
        member: part.member,
        restart: part.restart,
        fail: part.fail,
        trans: copy_trans(alloc, part.trans.as_slice())?,
    })
}

fn copy_parts(alloc: Global, parts: &[Part]) -> Result<PartList, NoMemory>
    ensures { IfOk result (λ copy. copy ≡ parts.now) }
{
    let mut copies = PartList::new(alloc);
    for part in parts {
        copies.push(copy_part(alloc, part)?)?;
    }
    Ok(copies)
}

fn copy_phase(alloc: Global, phase: &Phase) -> Result<Phase, NoMemory>
    ensures { IfOk result (λ copy. copy ≡ phase.now) }
{
    Ok(Phase {
        groupfails: phase.groupfails,
        parts: copy_parts(alloc, phase.parts.as_slice())?,
    })
}

fn copy_phases(alloc: Global, phases: &[Phase]) -> Result<PhaseList, NoMemory>
    ensures { IfOk result (λ copy. copy ≡ phases.now) }
{
    let mut copies = PhaseList::new(alloc);
    for phase in phases {
        copies.push(copy_phase(alloc, phase)?)?;
    }
    Ok(copies)
}

pub fn copy_script(alloc: Global, script: &Script) -> Result<Script, NoMemory>
    ensures { IfOk result (λ copy. copy ≡ script.now) }
{
    Ok(Script {
        phases: copy_phases(alloc, script.phases.as_slice())?,
        groupfails: script.groupfails,
    })
}
