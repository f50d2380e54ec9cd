ghost use Rattle.std.specs.Prelude.{◌≡◌, ◌≢◌, ◌≤◌, ◌-◌, ◌/◌, ◌%◌, true, false, None, Some, IsErr, IfOk, OnOk, OnErr};
ghost use Rattle.ds_base.specs.Causes.{Rose};
ghost use Rattle.group_core.specs.declared.fault.RunFault.TheVariants as fault;
ghost use Rattle.group_crew.specs.Crews.{Keeps, Looks};
ghost use Rattle.group_core.specs.Events.{takes};
ghost use Rattle.group_core.specs.Goes.{Goes};
ghost use Rattle.group_core.specs.Moves.{Moves};
ghost use Rattle.group_core.specs.Takes.{Takes, TakesMember, TakesOwn, is_read};

use crate::fault::RunFault;
use crate::group::Group;
use crate::lines::{note_failure, note_silent, note_step, reserve};
use cache_structure::CacheFace;
use ds_base::{NoMemory, Volume};
use ds_disk::Disk;
use group_crew::{EventFault, Policy, Stepped};
use std::alloc::Global;

// Why a run ends with this byte that can't stand there.
fn fault_of(damage: Option<(Volume, u64)>) -> Option<RunFault>
    ensures { is_read result ≡ true }
{
    match damage {
        Some((volume, at)) => Some(RunFault::Damaged { volume, at }),
        None => None,
    }
}

impl<D: Disk, C: CacheFace, P: Policy> Group<D, C, P> {
    // Enters what an event of the member at a place was, and finds again what is ready.
    fn enter(&mut self, at: usize, event: u64, place: u64, stepped: &Stepped)
        ensures fault { is_read self.new.fault ≡ true }
        ensures looks { Looks self.old.crew self.new.crew }
        ensures rest { self.new ≡ record self.old { crew = self.new.crew; lines = self.new.lines; fault = self.new.fault } }
    {
        note_step(&mut self.lines, place, event, stepped);
        self.fault = fault_of(self.crew.damage_at(at));
        self.crew.find_ready();
    }

    // What the member's event wanted may not be done.
    fn refuse(&mut self, place: u64)
        ensures fault { self.new.fault ≡ Some (fault.Unlawful place) }
        ensures looks { Looks self.old.crew self.new.crew }
        ensures rest { self.new ≡ record self.old { crew = self.new.crew; fault = self.new.fault } }
    {
        self.fault = Some(RunFault::Unlawful { place });
        self.crew.find_ready();
    }

    // The event of a choice of the member at a place. Answers whether a call of the disk has failed.
    fn take_member(
        &mut self,
        alloc: Global,
        at: usize,
        event: u64,
        place: u64,
    ) -> Result<bool, NoMemory>
        ensures acts { IfOk result (λ failed. TakesMember C.directory D.alive D.contents self.new.fault self.old.crew self.old.disk at (event / 64) place failed self.new.crew self.new.disk) }
        ensures keeps { Keeps self.old.crew self.new.crew }
        ensures later { D.faults self.old.disk ≤ D.faults self.new.disk }
        ensures rose { IfOk result (λ failed. failed ≡ true → Rose (D.faults self.old.disk) (D.faults self.new.disk)) }
        ensures rest { self.new ≡ record self.old { disk = self.new.disk; crew = self.new.crew; lines = self.new.lines; fault = self.new.fault } }
    {
        match self
            .crew
            .step_member(alloc, &mut self.disk, at, event / 64, place)
        {
            Err(EventFault::NoMemory) => Err(NoMemory),
            Err(EventFault::Unlawful) => {
                self.refuse(place);
                Ok(false)
            }
            Ok(stepped) => {
                self.enter(at, event, place, &stepped);
                Ok(stepped.has_failed())
            }
        }
    }

    #[tactic(auto, using(crate::proofs::Taking::member_moves))]
    // Takes a ready event. Answers whether a call of the disk has failed.
    fn take_ready(&mut self, alloc: Global, event: u64, place: u64) -> Result<bool, NoMemory>
        requires { self.old.fault ≡ None }
        ensures moves { OnOk result (Moves C.directory event self.old.crew self.new.crew self.new.fault) }
        ensures own { event % 64 ≡ 0 → IfOk result (λ failed. TakesOwn C.directory D.alive D.contents self.new.fault self.old.crew self.old.disk event place failed self.new.crew self.new.disk) }
        ensures member { event % 64 ≢ 0 → IfOk result (λ failed. TakesMember C.directory D.alive D.contents self.new.fault self.old.crew self.old.disk (event % 64 - 1) (event / 64) place failed self.new.crew self.new.disk) }
        ensures later { D.faults self.old.disk ≤ D.faults self.new.disk }
        ensures rose { IfOk result (λ failed. failed ≡ true → Rose (D.faults self.old.disk) (D.faults self.new.disk)) }
        ensures rest { self.new ≡ record self.old { disk = self.new.disk; crew = self.new.crew; lines = self.new.lines; fault = self.new.fault } }
    {
        match ((event % 64) as usize).checked_sub(1) {
            None => self.take_own(alloc, event, place),
            Some(at) => self.take_member(alloc, at, event, place),
        }
    }

    #[tactic(auto, using(crate::proofs::Taking::unended))]
    // Takes an event, if its choice is ready. Answers whether a call of the disk has failed.
    fn take_event(&mut self, alloc: Global, event: u64, place: u64) -> Result<bool, NoMemory>
        ensures left { takes self.old event ≡ false → self.new ≡ record self.old { lines = self.new.lines } }
        ensures missed { takes self.old event ≡ false → IfOk result (λ failed. failed ≡ false) }
        ensures moves { takes self.old event ≡ true → OnOk result (Moves C.directory event self.old.crew self.new.crew self.new.fault) }
        ensures own { takes self.old event ≡ true → event % 64 ≡ 0 → IfOk result (λ failed. TakesOwn C.directory D.alive D.contents self.new.fault self.old.crew self.old.disk event place failed self.new.crew self.new.disk) }
        ensures member { takes self.old event ≡ true → event % 64 ≢ 0 → IfOk result (λ failed. TakesMember C.directory D.alive D.contents self.new.fault self.old.crew self.old.disk (event % 64 - 1) (event / 64) place failed self.new.crew self.new.disk) }
        ensures later { D.faults self.old.disk ≤ D.faults self.new.disk }
        ensures rose { IfOk result (λ failed. failed ≡ true → Rose (D.faults self.old.disk) (D.faults self.new.disk)) }
        ensures rest { self.new ≡ record self.old { disk = self.new.disk; crew = self.new.crew; lines = self.new.lines; fault = self.new.fault } }
    {
        if !self.is_taken(event) {
            note_silent(&mut self.lines, place, event);
            return Ok(false);
        }
        self.take_ready(alloc, event, place)
    }

    // Takes the event's number into the journal, then the event, and its place where a call of the disk has failed.
    fn enter_event(&mut self, alloc: Global, event: u64) -> Result<(), NoMemory>
        ensures takes { OnOk result (Takes C.directory D.alive D.contents D.faults self.old event self.new) }
        ensures left { takes self.old event ≡ false → self.new ≡ record self.old { journal = self.new.journal; lines = self.new.lines; faults = self.new.faults } }
        ensures later { D.faults self.old.disk ≤ D.faults self.new.disk }
        ensures kept { OnErr result (self.new.faults.items ≡ self.old.faults.items) }
    {
        reserve(&mut self.journal, &mut self.faults, &mut self.lines)?;
        self.journal.push_reserved(event);
        let place = self.journal.len() as u64;
        let failed = self.take_event(alloc, event, place)?;
        note_failure(&mut self.faults, place, failed);
        Ok(())
    }

    #[tactic(auto, using(crate::proofs::Taking::goes_from, crate::proofs::Going::stays, crate::proofs::Going::wants))]
    /// Takes one event. One whose choice isn't ready changes nothing but the journal, and the lines of the trace. Where memory
    /// was wanting, it is wanting from then on.
    pub fn step(&mut self, alloc: Global, event: u64) -> Result<(), NoMemory>
        ensures takes { OnOk result (Takes C.directory D.alive D.contents D.faults self.old event self.new) }
        ensures left { takes self.old event ≡ false → self.new ≡ record self.old { journal = self.new.journal; lines = self.new.lines; faults = self.new.faults; fault = self.new.fault } }
        ensures goes { Goes (D.faults self.old.disk) self.old.faults.items self.old.fault (D.faults self.new.disk) self.new.faults.items self.new.fault }
        ensures wanting { OnErr result (self.new.fault ≡ Some fault.NoMemory) }
        ensures still { self.old.fault ≡ Some fault.NoMemory → IsErr result }
    {
        if let Some(RunFault::NoMemory) = self.fault {
            return Err(NoMemory);
        }
        match self.enter_event(alloc, event) {
            Ok(()) => Ok(()),
            Err(NoMemory) => {
                self.fault = Some(RunFault::NoMemory);
                Err(NoMemory)
            }
        }
    }
}
