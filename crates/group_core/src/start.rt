ghost use Rattle.std.specs.Prelude.{◌≡◌, ◌≢◌, ◌≤◌, ℕ, [], None, Ok, IfOk, IfErr};
ghost use Rattle.ds_base.specs.Causes.{Rose};
ghost use Rattle.cache_structure.specs.Directory.{empty_directory};
ghost use Rattle.ds_disk.specs.Contents.{Becomes};
ghost use Rattle.disk_restart.specs.Keeping.{KeepsRecords};
ghost use Rattle.disk_restart.specs.Runs.{RestartsDisk};
ghost use Rattle.group_core.specs.declared.fault.RunFault.TheVariants as fault;
ghost use Rattle.group_crew.specs.Ends.{AreEndsOf};
ghost use Rattle.group_crew.specs.Failing.{drive_of};
ghost use Rattle.group_core.specs.Starts.{AllKnowDisk, EndsKnown, IsFresh, IsOpened, IsOpenedTo, IsUnopened, StopsBy};
ghost use Rattle.group_restart.specs.declared.calls.State.TheVariants as state;

use crate::fault::{RunFault, StartFault};
use crate::group::Group;
use cache_structure::CacheFace;
use checkpoint_reader::KnownEnds;
use disk_restart::{State, keeping_laws, run_restart};
use ds_base::{Lrsn, Sizes};
use ds_disk::Disk;
use ds_model::Script;
use group_crew::{Crew, Policy, ends_behind};
use group_restart::GroupRestart;
use std::alloc::Global;

/// What the group restart leaves that opens a disk: the greatest number that was drawn for a log record, and where the logs end.
#[derive(Drop)]
pub struct Opened {
    counter: Lrsn,
    known: KnownEnds,
}

// The same of a group restart that has ended well.
fn opened_by(restart: &GroupRestart, ended: &State) -> Result<Opened, RunFault>
    ensures done { IfOk result (λ opened. ended.now ≡ state.Done opened.counter) }
    ensures ends { IfOk result (λ opened. AreEndsOf restart.now opened.known) }
    ensures stops { IfErr result (λ why. StopsBy why (Ok ended.now)) }
    ensures failed { IfErr result (λ why. why ≡ fault.Failed → ended.now ≡ state.Failed) }
    ensures lawful { IfErr result (λ why. (at : ℕ) → why ≢ fault.Unlawful at) }
{
    match *ended {
        State::Done { counter } => Ok(Opened {
            counter,
            known: ends_behind(restart),
        }),
        State::Failed => Err(RunFault::Failed),
        State::Damaged { volume, at } => Err(RunFault::Damaged { volume, at }),
        State::Going => Err(RunFault::NoMemory),
    }
}

// Runs the group restart that opens the disk.
fn open_disk<D: Disk>(alloc: Global, disk: &mut D) -> Result<Opened, RunFault>
    ensures keeps { Becomes (D.contents disk.old) (D.contents disk.new) KeepsRecords }
    ensures opens { IfOk result (λ opened. RestartsDisk (drive_of D.alive D.contents disk.old) (Ok (state.Done opened.counter)) (drive_of D.alive D.contents disk.new)) }
    ensures unopened { IfErr result (λ why. IsUnopened D.alive D.contents disk.old why disk.new) }
    ensures ends { IfOk result (λ opened. Becomes (D.contents disk.old) (D.contents disk.new) (λ _ c. EndsKnown opened.known c)) }
    ensures later { D.faults disk.old ≤ D.faults disk.new }
    ensures failed { IfErr result (λ why. why ≡ fault.Failed → Rose (D.faults disk.old) (D.faults disk.new)) }
    ensures lawful { IfErr result (λ why. (at : ℕ) → why ≢ fault.Unlawful at) }
{
    keeping_laws();
    let Ok(mut restart) = GroupRestart::new(alloc) else {
        return Err(RunFault::NoMemory);
    };
    match run_restart(alloc, disk, &mut restart) {
        Ok(ended) => opened_by(&restart, &ended),
        Err(_) => Err(RunFault::NoMemory),
    }
}

impl<D: Disk, C: CacheFace + Drop, P: Policy + Drop> Group<D, C, P> {
    /// A group whose members have these policies, over an empty cache, and a disk that a group restart has opened. They know where
    /// its logs end.
    pub fn start(
        alloc: Global,
        disk: D,
        cache: C,
        sizes: &Sizes,
        script: Script,
        policies: Vec<P>,
    ) -> Result<Group<D, C, P>, StartFault<D>>
        requires sizes { (1 ≤ sizes.now.locks) × (1 ≤ sizes.now.pool) }
        requires cache { C.directory cache ≡ empty_directory sizes.now.cache sizes.now.pool }
        ensures disk { IfOk result (λ group. D.faults disk ≤ D.faults group.disk) }
        ensures keeps { IfOk result (λ group. Becomes (D.contents disk) (D.contents group.disk) KeepsRecords) }
        ensures opens { IfOk result (λ group. IsOpened D.alive D.contents disk group.disk) }
        ensures counted { IfOk result (λ group. IsOpenedTo D.alive D.contents disk group.crew.facility.counter group.disk) }
        ensures known { IfOk result (λ group. AllKnowDisk (D.contents disk) (D.contents group.disk) group.crew.parts.items) }
        ensures fault { IfOk result (λ group. group.fault ≡ None) }
        ensures faults { IfOk result (λ group. group.faults.items ≡ []) }
        ensures journal { IfOk result (λ group. group.journal.items ≡ []) }
        ensures script { IfOk result (λ group. group.crew.script ≡ script) }
        ensures fresh { IfOk result (λ group. IsFresh C.directory group) }
        ensures err { IfErr result (λ why. D.faults disk ≤ D.faults why.disk) }
        ensures left { IfErr result (λ why. Becomes (D.contents disk) (D.contents why.disk) KeepsRecords) }
        ensures unopened { IfErr result (λ why. IsUnopened D.alive D.contents disk why.why why.disk) }
        ensures failed { IfErr result (λ why. why.why ≡ fault.Failed → Rose (D.faults disk) (D.faults why.disk)) }
        ensures lawful { IfErr result (λ why. (at : ℕ) → why.why ≢ fault.Unlawful at) }
    {
        let mut disk = disk;
        match open_disk(alloc, &mut disk) {
            Err(why) => Err(StartFault { disk, why }),
            Ok(opened) => match Crew::new(
                alloc,
                cache,
                sizes,
                opened.counter,
                &opened.known,
                script,
                policies,
            ) {
                Ok(crew) => Ok(Group {
                    disk,
                    crew,
                    journal: Vec::new(alloc),
                    lines: None,
                    faults: Vec::new(alloc),
                    fault: None,
                }),
                Err(_) => Err(StartFault {
                    disk,
                    why: RunFault::NoMemory,
                }),
            },
        }
    }
}

impl<D, C, P> Group<D, C, P> {
    /// The lines of a trace are kept from now on.
    pub fn trace(&mut self, alloc: Global)
        ensures { self.new ≡ record self.old { lines = self.new.lines } }
    {
        self.lines = Some(Vec::new(alloc));
    }
}
