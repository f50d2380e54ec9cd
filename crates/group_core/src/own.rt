//! The events of the group itself.

ghost use Rattle.std.specs.Prelude.{◌≡◌, ◌≢◌, ◌≤◌, ℕ, true, false, None, Some, OnOk, IfOk, IfSome};
ghost use Rattle.ds_base.specs.Causes.{Rose};
ghost use Rattle.group_core.specs.declared.fault.RunFault.TheVariants as fault;
ghost use Rattle.group_core.specs.Goes.{ends_failed};
ghost use Rattle.group_core.specs.Moves.{Moves};
ghost use Rattle.group_core.specs.Restarts.{EntersRestart, KnowBehind, StepIsKnown, is_stopped};
ghost use Rattle.group_core.specs.Takes.{TakesOwn};
ghost use Rattle.group_crew.specs.States.{crew_state};

use crate::fault::RunFault;
use crate::group::Group;
use crate::lines::{note, note_silent};
use cache_structure::CacheFace;
use ds_base::NoMemory;
use ds_disk::Disk;
use group_crew::{GROUP_RESTART, NEXT_PHASE, Policy, step_restart};
use group_restart::State;
use std::alloc::Global;
use trace_words::call_line;

// Whether a call of the disk has failed in a group restart.
fn is_stopped(reached: &State) -> bool
    ensures { result ≡ is_stopped reached.now }
{
    match *reached {
        State::Failed => true,
        State::Going | State::Done { .. } | State::Damaged { .. } => false,
    }
}

impl<D: Disk, C: CacheFace, P: Policy> Group<D, C, P> {
    // The next phase begins.
    fn take_phase(&mut self, alloc: Global, place: u64) -> Result<(), NoMemory>
        requires { self.old.fault ≡ None }
        ensures moves { OnOk result (Moves C.directory 0 self.old.crew self.new.crew self.new.fault) }
        ensures leads { OnOk result (TakesOwn C.directory D.alive D.contents self.new.fault self.old.crew self.old.disk 0 place false self.new.crew self.new.disk) }
        ensures rest { self.new ≡ record self.old { crew = self.new.crew; fault = self.new.fault } }
    {
        if !self.crew.begin_phase(alloc)? {
            self.fault = Some(RunFault::Unlawful { place });
        }
        Ok(())
    }

    // The script lets the group fail.
    fn take_failure(&mut self, alloc: Global) -> Result<(), NoMemory>
        requires { self.old.fault ≡ None }
        ensures moves { OnOk result (Moves C.directory 64 self.old.crew self.new.crew self.new.fault) }
        ensures leads { (event place : ℕ) → event ≢ 0 → event ≢ 128 → OnOk result (TakesOwn C.directory D.alive D.contents self.new.fault self.old.crew self.old.disk event place false self.new.crew self.new.disk) }
        ensures rest { self.new ≡ record self.old { crew = self.new.crew } }
    {
        self.crew.progress.count_groupfail();
        self.crew.fail(alloc)
    }

    // Goes on from where the group restart stands.
    fn enter_restart(&mut self, alloc: Global, reached: &State) -> Result<(), NoMemory>
        requires { self.old.fault ≡ None }
        ensures moves { OnOk result (Moves C.directory 128 self.old.crew self.new.crew self.new.fault) }
        ensures enters { OnOk result (EntersRestart reached.now self.new.fault (crew_state C.directory self.old.crew) (crew_state C.directory self.new.crew)) }
        ensures known { OnOk result (KnowBehind reached.now self.old.crew.restart self.old.crew.parts.items self.new.crew.parts.items) }
        ensures failed { OnOk result (is_stopped reached.now ≡ ends_failed self.new.fault) }
        ensures lawful { (at : ℕ) → self.new.fault ≢ Some (fault.Unlawful at) }
        ensures rest { self.new ≡ record self.old { crew = self.new.crew; fault = self.new.fault } }
    {
        match *reached {
            State::Going => {}
            State::Done { counter } => self.crew.reset(alloc, counter)?,
            State::Damaged { volume, at } => self.fault = Some(RunFault::Damaged { volume, at }),
            State::Failed => {
                self.fault = Some(RunFault::Failed);
                self.crew.fates.stop_all();
            }
        }
        Ok(())
    }

    // The next call of the disk in the group restart. Answers whether it has failed.
    fn take_restart(&mut self, alloc: Global, event: u64, place: u64) -> Result<bool, NoMemory>
        requires { self.old.fault ≡ None }
        ensures moves { OnOk result (Moves C.directory 128 self.old.crew self.new.crew self.new.fault) }
        ensures leads { IfOk result (λ failed. TakesOwn C.directory D.alive D.contents self.new.fault self.old.crew self.old.disk 128 place failed self.new.crew self.new.disk) }
        ensures known { OnOk result (IfSome self.old.crew.restart (λ restart. StepIsKnown D.alive D.contents restart self.old.disk self.new.disk self.old.crew.parts.items self.new.crew.parts.items)) }
        ensures later { D.faults self.old.disk ≤ D.faults self.new.disk }
        ensures rose { IfOk result (λ failed. failed ≡ true → Rose (D.faults self.old.disk) (D.faults self.new.disk)) }
        ensures rest { self.new ≡ record self.old { disk = self.new.disk; crew = self.new.crew; lines = self.new.lines; fault = self.new.fault } }
    {
        let Some(restart) = &mut self.crew.restart else {
            return Ok(false);
        };
        let (call, reached) = step_restart(alloc, restart, &mut self.disk)?;
        let has_failed = is_stopped(&reached);
        note(&mut self.lines, call_line(place, event, &call, has_failed));
        self.enter_restart(alloc, &reached)?;
        Ok(has_failed)
    }

    // Takes a ready event of the group itself. Answers whether a call of the disk has failed.
    fn take_choice(&mut self, alloc: Global, event: u64, place: u64) -> Result<bool, NoMemory>
        requires { self.old.fault ≡ None }
        ensures moves { OnOk result (Moves C.directory event self.old.crew self.new.crew self.new.fault) }
        ensures leads { IfOk result (λ failed. TakesOwn C.directory D.alive D.contents self.new.fault self.old.crew self.old.disk event place failed self.new.crew self.new.disk) }
        ensures later { D.faults self.old.disk ≤ D.faults self.new.disk }
        ensures rose { IfOk result (λ failed. failed ≡ true → Rose (D.faults self.old.disk) (D.faults self.new.disk)) }
        ensures rest { self.new ≡ record self.old { disk = self.new.disk; crew = self.new.crew; lines = self.new.lines; fault = self.new.fault } }
    {
        if event == GROUP_RESTART * 64 {
            return self.take_restart(alloc, event, place);
        }
        note_silent(&mut self.lines, place, event);
        if event == NEXT_PHASE * 64 {
            self.take_phase(alloc, place)?;
        } else {
            self.take_failure(alloc)?;
        }
        Ok(false)
    }

    /// The same, and then what is ready is found again.
    pub(crate) fn take_own(
        &mut self,
        alloc: Global,
        event: u64,
        place: u64,
    ) -> Result<bool, NoMemory>
        requires { self.old.fault ≡ None }
        ensures moves { OnOk result (Moves C.directory event self.old.crew self.new.crew self.new.fault) }
        ensures leads { IfOk result (λ failed. TakesOwn C.directory D.alive D.contents self.new.fault self.old.crew self.old.disk event place failed self.new.crew self.new.disk) }
        ensures later { D.faults self.old.disk ≤ D.faults self.new.disk }
        ensures rose { IfOk result (λ failed. failed ≡ true → Rose (D.faults self.old.disk) (D.faults self.new.disk)) }
        ensures rest { self.new ≡ record self.old { disk = self.new.disk; crew = self.new.crew; lines = self.new.lines; fault = self.new.fault } }
    {
        let failed = self.take_choice(alloc, event, place)?;
        self.crew.find_ready();
        Ok(failed)
    }
}
