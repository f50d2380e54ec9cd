ghost use Rattle.std.specs.Prelude.{◌≡◌, ◌≢◌, ◌≤◌, ℕ, Ok, IfOk};
ghost use Rattle.ds_base.specs.Causes.{Rose};
ghost use Rattle.ds_disk.specs.Contents.{Becomes};
ghost use Rattle.group_restart.specs.Course.{IsBegun};
ghost use Rattle.group_restart.specs.declared.calls.State.TheVariants as state;
ghost use Rattle.disk_restart.specs.Ends.{EndsBehind};
ghost use Rattle.disk_restart.specs.Keeping.{KeepsRecords};
ghost use Rattle.disk_restart.specs.Runs.{IsRun, RestartsDisk};

use crate::laws::keeping_laws;
use ds_base::NoMemory;
use ds_disk::Disk;
use group_restart::{GroupRestart, State};
use log_reader::reader_laws;
use log_record::log_laws;
use std::alloc::Global;

/// Runs a group restart that has only begun to its end.
///
/// Whatever its end, also where a call of the disk fails or memory is wanting, each log has the row changes, the page changes
/// for no transaction and the commits that it had. Where it is done, each log is whole records, and ends where it says.
pub fn run_restart<D: Disk>(
    alloc: Global,
    disk: &mut D,
    restart: &mut GroupRestart,
) -> Result<State, NoMemory>
    requires { IsBegun restart.old }
    ensures later { D.faults disk.old ≤ D.faults disk.new }
    ensures failed { result ≡ Ok state.Failed → Rose (D.faults disk.old) (D.faults disk.new) }
    ensures ends { IfOk result (λ s. s ≢ state.Going) }
    ensures keeps { Becomes (D.contents disk.old) (D.contents disk.new) KeepsRecords }
    ensures run { IsRun (record { alive = D.alive disk.old; contents = D.contents disk.old }) restart.old result (record { alive = D.alive disk.new; contents = D.contents disk.new }) restart.new }
    ensures there { (counter : ℕ) → result ≡ Ok (state.Done counter) → Becomes (D.contents disk.old) (D.contents disk.new) (λ _ c. EndsBehind restart.new c) }
{
    log_laws();
    reader_laws();
    for _ in 0..u64::MAX {
        let state = restart.step(alloc, disk)?;
        if state != State::Going {
            return Ok(state);
        }
    }
    Err(NoMemory)
}

/// The same of one that is made for it.
pub fn restart_disk<D: Disk>(alloc: Global, disk: &mut D) -> Result<State, NoMemory>
    ensures later { D.faults disk.old ≤ D.faults disk.new }
    ensures failed { result ≡ Ok state.Failed → Rose (D.faults disk.old) (D.faults disk.new) }
    ensures ends { IfOk result (λ s. s ≢ state.Going) }
    ensures keeps { Becomes (D.contents disk.old) (D.contents disk.new) KeepsRecords }
    ensures run { RestartsDisk (record { alive = D.alive disk.old; contents = D.contents disk.old }) result (record { alive = D.alive disk.new; contents = D.contents disk.new }) }
{
    keeping_laws();
    let mut restart = GroupRestart::new(alloc)?;
    run_restart(alloc, disk, &mut restart)
}
