ghost use Rattle.std.specs.Prelude.{◌≡◌, ◌≢◌, ◌≤◌, true, Ok, IfOk, OnOk, IfErr};
ghost use Rattle.cache_structure.specs.State.{directory_of};
ghost use Rattle.ds_disk.specs.Contents.{Becomes};
ghost use Rattle.ds_model.specs.Rows.{AreSorted};
ghost use Rattle.disk_restart.specs.Keeping.{KeepsRecords};
ghost use Rattle.group_core.specs.declared.fault.RunFault.TheVariants as fault;
ghost use Rattle.group_core.specs.declared.schedule.RunEnd.TheVariants as ends;
ghost use Rattle.group_core.specs.Ends.{Ends};
ghost use Rattle.group_core.specs.Starts.{IsUnopened};
ghost use Rattle.checked_run.specs.Leading.{Begins, ComesTo, IsCounted, Leads, LeadsFrom, OpensOver, RunsBy, kind_of};
ghost use Rattle.checked_run.specs.Outcomes.{Comes, ComesFrom, HasCause, IsLeft, Plays};
ghost use Rattle.checked_run.specs.Restarted.{IfUnopened, IsLeftByRestarts, IsRestarted, TellsDamageOf};
ghost use Rattle.checked_run.specs.Settled.{Settles};
ghost use Rattle.checked_run.specs.Told.{TellsAlways};

use crate::account::{Account, no_account};
use crate::copies::copy_script;
use crate::ended::{Ended, Outcome, Ran};
use crate::fault::fault_of;
use crate::settle::settle;
use cache_structure::Cache;
use disk_restart::keeping_laws;
use draw_generator::Generator;
use ds_base::{NoMemory, Sizes};
use ds_disk::Disk;
use ds_model::Script;
use group_core::{Group, Policy, RunEnd, RunFault, StartFault, run_one_thread};
use group_threads::{Gate, run_threads};
use opening_rows::{Opening, read_opening};
use refusal_causes::{answers_given, causes_held};
use std::alloc::Global;
use std::sync::Wait;
use std::thread::Threads;

fn no_memory<D>(disk: D) -> StartFault<D>
    ensures { result ≡ record { disk = disk; why = fault.NoMemory } }
{
    StartFault {
        disk,
        why: RunFault::NoMemory,
    }
}

// Whether the group has as many members as its sizes say, and those are no more than may be.
fn is_counted<D, P>(group: &Group<D, Cache, P>) -> bool
    ensures { result ≡ true → IsCounted group.now }
{
    let sizes = group.crew.sizes.sizes;
    group.crew.parts.len() == sizes.members as usize && sizes.members <= 32 && sizes.agents <= 16
}

// The group that was started over a disk, if it has all its members. A start makes no other, so memory isn't wanting here.
fn counted<D, P: Drop>(group: Group<D, Cache, P>) -> Result<Group<D, Cache, P>, StartFault<D>>
    ensures same { IfOk result (λ it. it ≡ group) }
    ensures counted { IfOk result IsCounted }
    ensures left { IfErr result (λ f. f ≡ record { disk = group.disk; why = fault.NoMemory }) }
{
    if is_counted(&group) {
        return Ok(group);
    }
    let Group { disk, .. } = group;
    Err(no_memory(disk))
}

// A group that is to play a script. Its start runs the opening group restart.
fn begin<D: Disk, P: Policy + Drop>(
    alloc: Global,
    disk: D,
    script: &Script,
    sizes: &Sizes,
    members: Vec<P>,
    is_traced: bool,
) -> Result<Group<D, Cache, P>, StartFault<D>>
    requires { (1 ≤ sizes.now.locks) × (1 ≤ sizes.now.pool) }
    ensures later { IfOk result (λ group. D.faults disk ≤ D.faults group.disk) }
    ensures begins { IfOk result (Begins directory_of script.now) }
    ensures opens { IfOk result (OpensOver D.alive D.contents disk) }
    ensures left { IfErr result (λ f. D.faults disk ≤ D.faults f.disk) }
    ensures keeps { IfErr result (λ f. Becomes (D.contents disk) (D.contents f.disk) KeepsRecords) }
    ensures unopened { IfErr result (λ f. IsUnopened D.alive D.contents disk f.why f.disk) }
    ensures cause { IfErr result (λ f. HasCause (D.faults disk) (D.faults f.disk) f.why) }
{
    keeping_laws();
    let Ok(cache) = Cache::new(alloc, sizes.cache, sizes.pool) else {
        return Err(no_memory(disk));
    };
    let Ok(script) = copy_script(alloc, script) else {
        return Err(no_memory(disk));
    };
    let started = Group::start(alloc, disk, cache, sizes, script, members)?;
    let mut group = counted(started)?;
    if is_traced {
        group.trace(alloc);
    }
    Ok(group)
}

// Plays to the end: by the schedule of a seed, or with a thread for each member of a phase.
fn play_to_end<
    R: Threads + Wait + Sync,
    D: Disk + Drop + Send,
    P: Policy + Drop + Send,
    G: Gate + Sync,
>(
    rt: &R,
    alloc: Global,
    mut group: Group<D, Cache, P>,
    seed: Option<u64>,
    gate: &G,
) -> (Group<D, Cache, P>, Result<RunEnd, NoMemory>)
    ensures ends { IfOk result.1 (λ end. Ends end result.0) }
    ensures unspent { result.1 ≢ Ok ends.Spent }
    ensures runs { OnOk result.1 (RunsBy directory_of D.alive D.contents D.faults group seed result.0) }
    ensures later { D.faults group.disk ≤ D.faults result.0.disk }
{
    match seed {
        None => run_threads(rt, alloc, group, gate),
        Some(seed) => {
            let mut generator = Generator::new(seed);
            let end = run_one_thread(alloc, &mut group, &mut generator, u64::MAX);
            (group, end)
        }
    }
}

// Plays to the end, closes the disk, and settles what the run came to.
fn finish<R: Threads + Wait + Sync, D: Disk + Drop + Send, P: Policy + Drop + Send, G: Gate + Sync>(
    rt: &R,
    alloc: Global,
    group: Group<D, Cache, P>,
    script: &Script,
    opening: &Opening,
    seed: Option<u64>,
    gate: &G,
    is_traced: bool,
) -> (D, Account, Ended)
    requires begins { Begins directory_of script.now group }
    requires in_order { AreSorted opening.now.rows }
    ensures comes { ComesTo
        (LeadsFrom directory_of D.alive D.contents D.faults group seed result.1)
        (Settles (TellsAlways D.contents) script.now is_traced opening.now (D.faults group.disk) (D.faults result.0) (D.contents result.0) result.1)
        result.2 }
    ensures later { D.faults group.disk ≤ D.faults result.0 }
{
    causes_held::<D, Cache, P>();
    answers_given::<D, Cache, P>();
    let (group, end) = play_to_end(rt, alloc, group, seed, gate);
    let (mut disk, played, closed) = group.close(alloc);
    let (account, ended) = settle(
        alloc, &mut disk, script, opening, played, end, closed, is_traced,
    );
    (disk, account, ended)
}

// Plays a script on a disk whose logs were read.
fn play_from<
    R: Threads + Wait + Sync,
    D: Disk + Drop + Send,
    P: Policy + Drop + Send,
    G: Gate + Sync,
>(
    rt: &R,
    alloc: Global,
    disk: D,
    opening: Opening,
    script: &Script,
    sizes: &Sizes,
    members: Vec<P>,
    seed: Option<u64>,
    gate: &G,
    is_traced: bool,
) -> Ran<D>
    requires sizes { (1 ≤ sizes.now.locks) × (1 ≤ sizes.now.pool) }
    requires in_order { AreSorted opening.rows }
    ensures comes { ComesFrom opening.rows (D.faults disk) (D.faults result.disk) result.account
        (λ _. ComesTo
        (Leads P D.alive D.contents D.faults (D.contents disk) script.now seed result.account)
        (Settles (TellsAlways D.contents) script.now is_traced opening (D.faults disk) (D.faults result.disk) (D.contents result.disk) result.account))
        result.outcome }
    ensures left { IsLeft result.outcome (D.contents disk) (D.contents result.disk) }
    ensures restarts { IfUnopened result.outcome (IsRestarted D.alive D.contents disk (TellsDamageOf result.outcome) result.disk) }
    ensures later { D.faults disk ≤ D.faults result.disk }
{
    match begin(alloc, disk, script, sizes, members, is_traced) {
        Ok(group) => {
            let (disk, account, ended) = finish(
                rt, alloc, group, script, &opening, seed, gate, is_traced,
            );
            Ran {
                disk,
                outcome: Outcome::Opened {
                    opening: opening.rows,
                    ended,
                },
                account,
            }
        }
        Err(StartFault { disk, why }) => Ran {
            disk,
            outcome: Outcome::Unopened(why),
            account: no_account(alloc),
        },
    }
}

/// Plays a script with these members, by the schedule of this seed, or without one with a thread for each member of a phase: reads
/// the logs as they stand, opens the disk by a group restart, plays, closes the disk by another, and holds the report against the
/// script, the rows for which the logs stood at first, and the logs that are read back.
///
/// Where a call of the disk has failed the logs may not be read back: then the report is held against script and rows alone. It is
/// told so only where two calls have failed: where the first is one of the reading, the logs are read once more.
///
/// The account is that of the group to which its journal leads, from one that has just started over a disk that told what this one
/// did; and the report tells the fates of that group's transactions.
pub fn run_script<
    R: Threads + Wait + Sync,
    D: Disk + Drop + Send,
    P: Policy + Drop + Send,
    G: Gate + Sync,
>(
    rt: &R,
    alloc: Global,
    mut disk: D,
    script: &Script,
    sizes: &Sizes,
    members: Vec<P>,
    seed: Option<u64>,
    gate: &G,
    is_traced: bool,
) -> Ran<D>
    requires { (1 ≤ sizes.now.locks) × (1 ≤ sizes.now.pool) }
    ensures comes { Comes (D.contents disk) (D.faults disk) (D.faults result.disk) result.account
        (Plays (kind_of P D.alive D.contents D.faults) script.now seed is_traced (D.contents disk) (D.faults disk) (D.faults result.disk) (D.contents result.disk) result.account)
        result.outcome }
    ensures left { IsLeft result.outcome (D.contents disk) (D.contents result.disk) }
    ensures restarts { IfUnopened result.outcome (IsLeftByRestarts D.alive D.contents disk (TellsDamageOf result.outcome) result.disk) }
    ensures later { D.faults disk ≤ D.faults result.disk }
{
    keeping_laws();
    match read_opening(alloc, &mut disk) {
        Err(why) => Ran {
            disk,
            outcome: Outcome::Unopened(fault_of(why)),
            account: no_account(alloc),
        },
        Ok(opening) => play_from(
            rt, alloc, disk, opening, script, sizes, members, seed, gate, is_traced,
        ),
    }
}
