//! A run of a script by a group of members.

ghost use Rattle.std.specs.Prelude.{◌≤◌};
ghost use Rattle.member_core.specs.declared.member.Member.{Member as AnyMember};
ghost use Rattle.checked_run.specs.Leading.{kind_of};
ghost use Rattle.checked_run.specs.Outcomes.{Comes, IsLeft, Plays};
ghost use Rattle.checked_run.specs.Restarted.{IfUnopened, IsLeftByRestarts, TellsDamageOf};
ghost use Rattle.group_words.specs.Orders.{AreSizes};

use crate::prepare::Setting;
use checked_run::{Gate, Outcome, Ran, RunFault, no_account, run_script};
use disk_restart::keeping_laws;
use ds_base::{NoMemory, Sizes};
use ds_disk::Disk;
use ds_model::Script;
use member_core::Member;
use std::alloc::Global;
use std::sync::Wait;
use std::thread::Threads;

// The members of a group.
fn make_members(alloc: Global, sizes: &Sizes) -> Result<Vec<Member>, NoMemory> {
    let mut members = Vec::new(alloc);
    for _ in 0..sizes.members {
        members.push(Member::new(alloc, sizes)?)?;
    }
    Ok(members)
}

/// Plays a script in a group of its own.
pub fn run<R: Threads + Wait + Sync, D: Disk + Drop + Send, G: Gate + Sync>(
    rt: &R,
    alloc: Global,
    disk: D,
    script: &Script,
    setting: &Setting,
    gate: &G,
) -> Ran<D>
    requires sizes { AreSizes setting.now.sizes }
    ensures comes { Comes (D.contents disk) (D.faults disk) (D.faults result.disk) result.account
        (Plays (kind_of AnyMember D.alive D.contents D.faults) script.now setting.now.seed setting.now.trace (D.contents disk) (D.faults disk) (D.faults result.disk) (D.contents result.disk) result.account)
        result.outcome }
    ensures left { IsLeft result.outcome (D.contents disk) (D.contents result.disk) }
    ensures restarts { IfUnopened result.outcome (IsLeftByRestarts D.alive D.contents disk (TellsDamageOf result.outcome) result.disk) }
{
    keeping_laws();
    let Ok(members) = make_members(alloc, &setting.sizes) else {
        return Ran {
            disk,
            outcome: Outcome::Unopened(RunFault::NoMemory),
            account: no_account(alloc),
        };
    };
    run_script(
        rt,
        alloc,
        disk,
        script,
        &setting.sizes,
        members,
        setting.seed,
        gate,
        setting.trace,
    )
}
