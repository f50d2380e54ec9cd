ghost use Rattle.std.specs.Prelude.{◌≡◌, ◌≤◌, true, false};
ghost use Rattle.ds_base.specs.Causes.{Rose};
ghost use Rattle.group_core.specs.declared.closed.Closed.TheVariants as closed;
ghost use Rattle.group_core.specs.Closing.{is_closed, is_run, IsClosed};

use crate::closed::Closed;
use crate::fault::RunFault;
use crate::group::Group;
use disk_restart::{State, restart_disk};
use ds_disk::Disk;
use ds_model::{Entry, Script};
use group_crew::Crew;
use script_fates::Cause;
use std::alloc::Global;
use trace_words::Line;

/// What a run leaves beside the disk.
#[derive(Drop)]
pub struct Played {
    pub script: Script,
    /// Those that have a fate, in the order of their fates.
    pub entries: Vec<Entry>,
    pub causes: Vec<Cause>,
    pub journal: Vec<u64>,
    /// The lines of the trace, where one was kept.
    pub lines: Option<Vec<Line>>,
    /// The places in the journal, from 1 on, at which a call of the disk has failed.
    pub faults: Vec<u64>,
    pub fault: Option<RunFault>,
}

// Whether the disk is closed after such an end of a run.
fn is_closed(fault: Option<RunFault>) -> bool
    ensures { result ≡ is_closed fault }
{
    match fault {
        None | Some(RunFault::Failed) => true,
        Some(RunFault::Damaged { .. } | RunFault::Unlawful { .. } | RunFault::NoMemory) => false,
    }
}

// Runs the group restart that closes the disk.
fn close_disk<D: Disk>(alloc: Global, disk: &mut D) -> Closed
    ensures later { D.faults disk.old ≤ D.faults disk.new }
    ensures failed { result ≡ closed.Failed → Rose (D.faults disk.old) (D.faults disk.new) }
    ensures run { is_run result ≡ true }
    ensures closes { IsClosed D.alive D.contents disk.old result disk.new }
{
    match restart_disk(alloc, disk) {
        Ok(State::Done { .. }) => Closed::Done,
        Ok(State::Failed) => Closed::Failed,
        Ok(State::Damaged { volume, at }) => Closed::Damaged { volume, at },
        Ok(State::Going) | Err(_) => Closed::NoMemory,
    }
}

fn close_after<D: Disk>(alloc: Global, disk: &mut D, fault: Option<RunFault>) -> Closed
    ensures later { D.faults disk.old ≤ D.faults disk.new }
    ensures failed { result ≡ closed.Failed → Rose (D.faults disk.old) (D.faults disk.new) }
    ensures run { is_run result ≡ is_closed fault }
    ensures unrun { is_closed fault ≡ false → disk.new ≡ disk.old }
    ensures closes { is_closed fault ≡ true → IsClosed D.alive D.contents disk.old result disk.new }
{
    if is_closed(fault) {
        close_disk(alloc, disk)
    } else {
        Closed::Unrun
    }
}

impl<D, C: Drop, P: Drop> Group<D, C, P> {
    // Gives up the facility and the members.
    fn into_parts(self) -> (D, Played)
        ensures disk { result.0 ≡ self.disk }
        ensures fault { result.1.fault ≡ self.fault }
        ensures faults { result.1.faults ≡ self.faults }
        ensures journal { result.1.journal ≡ self.journal }
        ensures entries { result.1.entries.items ≡ self.crew.fates.entries }
        ensures causes { result.1.causes.items ≡ self.crew.fates.causes }
    {
        let Group {
            disk,
            crew,
            journal,
            lines,
            faults,
            fault,
        } = self;
        let Crew { script, fates, .. } = crew;
        let (entries, causes) = fates.into_parts();
        let played = Played {
            script,
            entries,
            causes,
            journal,
            lines,
            faults,
            fault,
        };
        (disk, played)
    }
}

impl<D: Disk, C: Drop, P: Drop> Group<D, C, P> {
    /// Gives up the facility and the members, and closes the disk by a group restart.
    pub fn close(self, alloc: Global) -> (D, Played, Closed)
        ensures later { D.faults self.disk ≤ D.faults result.0 }
        ensures failed { result.2 ≡ closed.Failed → Rose (D.faults self.disk) (D.faults result.0) }
        ensures run { is_run result.2 ≡ is_closed self.fault }
        ensures unrun { is_closed self.fault ≡ false → result.0 ≡ self.disk }
        ensures closes { is_closed self.fault ≡ true → IsClosed D.alive D.contents self.disk result.2 result.0 }
        ensures fault { result.1.fault ≡ self.fault }
        ensures faults { result.1.faults ≡ self.faults }
        ensures journal { result.1.journal ≡ self.journal }
        ensures entries { result.1.entries.items ≡ self.crew.fates.entries }
        ensures causes { result.1.causes.items ≡ self.crew.fates.causes }
    {
        let (mut disk, played) = self.into_parts();
        let closed = close_after(alloc, &mut disk, played.fault);
        (disk, played, closed)
    }
}
