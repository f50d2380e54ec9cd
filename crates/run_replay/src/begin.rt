//! A group that begins a script over an empty disk in memory.

ghost use Rattle.std.specs.Prelude.{◌≡◌, ◌≤◌, None, [], IfOk};
ghost use Rattle.cache_structure.specs.State.{directory_of};
ghost use Rattle.group_core.specs.Starts.{IsFresh};
ghost use Rattle.run_replay.specs.Beginning.{Begins};

use crate::copies::copy_script;
use cache_structure::Cache;
use ds_base::{NoMemory, Sizes};
use ds_disk::MemoryDisk;
use ds_model::Script;
use group_core::Group;
use member_core::Member;
use std::alloc::Global;

/// A group over memory.
pub type Stage = Group<MemoryDisk, Cache, Member>;

fn make_members(alloc: Global, sizes: &Sizes) -> Result<Vec<Member>, NoMemory> {
    let mut members = Vec::new(alloc);
    for _ in 0..sizes.members {
        members.push(Member::new(alloc, sizes)?)?;
    }
    Ok(members)
}

fn start(alloc: Global, script: Script, sizes: &Sizes) -> Result<Stage, NoMemory>
    requires { (1 ≤ sizes.now.locks) × (1 ≤ sizes.now.pool) }
    ensures script { IfOk result (λ group. group.crew.script ≡ script) }
    ensures fresh { IfOk result (IsFresh directory_of) }
    ensures journal { IfOk result (λ group. group.journal.items ≡ []) }
    ensures fault { IfOk result (λ group. group.fault ≡ None) }
{
    let members = make_members(alloc, sizes)?;
    let disk = MemoryDisk::new(alloc, Vec::new(alloc))?;
    let cache = Cache::new(alloc, sizes.cache, sizes.pool)?;
    match Group::start(alloc, disk, cache, sizes, script, members) {
        Err(_) => Err(NoMemory),
        Ok(group) => Ok(group),
    }
}

// The same, where the lines of its trace are kept.
fn start_traced(alloc: Global, script: Script, sizes: &Sizes) -> Result<Stage, NoMemory>
    requires { (1 ≤ sizes.now.locks) × (1 ≤ sizes.now.pool) }
    ensures script { IfOk result (λ group. group.crew.script ≡ script) }
    ensures fresh { IfOk result (IsFresh directory_of) }
    ensures journal { IfOk result (λ group. group.journal.items ≡ []) }
    ensures fault { IfOk result (λ group. group.fault ≡ None) }
{
    let mut group = start(alloc, script, sizes)?;
    group.trace(alloc);
    Ok(group)
}

/// A group of these sizes that is to play a copy of the script, and keeps the lines of its trace.
pub fn begin(alloc: Global, script: &Script, sizes: &Sizes) -> Result<Stage, NoMemory>
    requires { (1 ≤ sizes.now.locks) × (1 ≤ sizes.now.pool) }
    ensures { IfOk result (Begins script.now) }
{
    let script = copy_script(alloc, script)?;
    start_traced(alloc, script, sizes)
}
