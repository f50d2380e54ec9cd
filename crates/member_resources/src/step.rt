ghost use Rattle.std.specs.Prelude.{◌≡◌, ◌≢◌, ◌<◌, ◌≤◌, length, IfOk, OnOk, MatchResult};
ghost use Rattle.std.specs.List.{AllByRecursion};
ghost use Rattle.ds_base.specs.Causes.{Rose};
ghost use Rattle.ds_disk.specs.Answers.{HasCause};
ghost use Rattle.ds_model.specs.RecordBytes.{IsAllowed};
ghost use Rattle.ds_disk.specs.declared.disk.DiskError.TheVariants.{Failed};
ghost use Rattle.member_intents.specs.declared.outcome.Answered.TheVariants as answered;
ghost use Rattle.facility.specs.Commands.{AsksSlot};
ghost use Rattle.facility.specs.States.{held};
ghost use Rattle.member_intents.specs.declared.test.Test.{Test};
ghost use Rattle.member_intents.specs.declared.test.StepFault.TheVariants.{Unlawful, NotExecutable};
ghost use Rattle.member_intents.specs.declared.test.StepFault.TheVariants as faults;
ghost use Rattle.member_effects.specs.Given.{PlanIsAllowed};
ghost use Rattle.member_effects.specs.Puts.{event_records, reply_records};
ghost use Rattle.member_resources.specs.Held.{begun};
ghost use Rattle.member_resources.specs.Events.{world_of, waits_in, frame_read, SettlesReply, RunsCommand, CannotExecute, ReadsInto, Reads, Calls, Stores, RunsCall, Runs, IsStopped, holder_in, Ends, Happens, IsUnlawful, IsNotExecutable};

use crate::prepared::Prepared;
use crate::{Policy, Resources};
use cache_structure::CacheFace;
use ds_base::{MemberId, NoMemory, PageId};
use ds_disk::{Disk, DiskError};
use facility::{Command, Facility, Reply};
use member_effects::{Plan, Told, outcome_of};
use member_intents::{Answered, Event, Intent, Sent, StepFault};
use std::alloc::Global;

// The slots whose transactions are looked for in cycles.
fn waits_in(intent: &Intent) -> Option<u32>
    ensures { result ≡ waits_in intent.now }
{
    match *intent {
        Intent::Waits { slots } => Some(slots),
        _ => None,
    }
}

// The frame that is filled from the disk.
fn frame_read(intent: &Intent) -> Option<u16>
    ensures { result ≡ frame_read intent.now }
{
    match *intent {
        Intent::ReadPage { frame } => Some(frame),
        _ => None,
    }
}

impl Resources {
    fn read_into<D: Disk>(&mut self, disk: &mut D, at: u16, page: PageId) -> Result<(), DiskError>
        requires { at < length self.old.pages }
        ensures answers { ReadsInto (record { alive = D.alive disk.old; contents = D.contents disk.old }) self.old at page result (record { alive = D.alive disk.new; contents = D.contents disk.new }) self.new }
        ensures cause { HasCause (D.faults disk.old) (D.faults disk.new) result }
    {
        disk.read_page(page, self.pages[at as usize].bytes_mut())
    }

    fn read_page<D: Disk>(
        &mut self,
        disk: &mut D,
        intent: &Intent,
        page: PageId,
    ) -> Result<(), DiskError>
        ensures answers { Reads (record { alive = D.alive disk.old; contents = D.contents disk.old }) self.old intent.now page result (record { alive = D.alive disk.new; contents = D.contents disk.new }) self.new }
        ensures cause { HasCause (D.faults disk.old) (D.faults disk.new) result }
    {
        match frame_read(intent) {
            Some(at) if (at as usize) < self.pages.len() => self.read_into(disk, at, page),
            Some(_) | None => Ok(()),
        }
    }

    // Makes the disk call.
    fn call<D: Disk>(&mut self, disk: &mut D, intent: &Intent, sent: &Sent) -> Result<(), DiskError>
        ensures answers { Calls (record { alive = D.alive disk.old; contents = D.contents disk.old }) self.old intent.now sent.now result (record { alive = D.alive disk.new; contents = D.contents disk.new }) self.new }
        ensures cause { HasCause (D.faults disk.old) (D.faults disk.new) result }
    {
        match *sent {
            Sent::AppendLog => disk.append_log(self.marks.member(), self.marks.pending()),
            Sent::ReadPage(page) => self.read_page(disk, intent, page),
            Sent::WritePage(page) => disk.write_page(page, self.buffer.bytes()),
            Sent::None | Sent::Command(_) => Ok(()),
        }
    }

    fn store(
        &mut self,
        intent: &Intent,
        done: Result<(), DiskError>,
    ) -> Result<(Told, Answered), StepFault>
        ensures answers { MatchResult result (λ r. Stores self.old intent.now done r.1 r.0 self.new) (λ fault. fault ≡ faults.NoMemory) }
        ensures failed { IfOk result (λ r. r.1 ≡ answered.Failed → done ≡ Err Failed) }
    {
        match done {
            Ok(()) => Ok((self.settle_disk(intent), Answered::Done)),
            Err(DiskError::Failed) => Ok((Told::Failed, Answered::Failed)),
            Err(DiskError::NoMemory) => Err(StepFault::NoMemory),
        }
    }

    // Settles the reply to a command, behind which the facility is so. The waits and the cells that it asks for are looked
    // at where they stand.
    #[tactic(auto, using(crate::proofs::Allowed::waits_allowed))]
    fn settle<C: CacheFace>(
        &mut self,
        alloc: Global,
        facility: &Facility<C>,
        intent: &Intent,
        command: &Command,
        plan: Plan,
        reply: &Reply,
        place: u64,
    ) -> Result<Told, NoMemory>
        requires plan { PlanIsAllowed plan }
        requires slot { AsksSlot command.now }
        ensures settles { IfOk result (λ said. SettlesReply self.old intent.now command.now plan facility.now.lists reply.now place said self.new) }
        ensures allowed { OnOk result (AllByRecursion IsAllowed (reply_records self.old.marks intent.now plan reply.now)) }
    {
        match waits_in(intent) {
            Some(slots) => self.settle_waits(alloc, facility.waits(), slots, place),
            None => {
                let cells = facility.cells_for(self.marks.member(), command);
                Ok(self.settle_reply(intent, plan, reply, cells, place))
            }
        }
    }
}

impl Resources {
    // Gives a command, and settles its reply.
    #[tactic(auto, using(crate::proofs::Allowed::given_allowed))]
    fn run_command<C: CacheFace>(
        &mut self,
        alloc: Global,
        facility: &mut Facility<C>,
        intent: &Intent,
        command: &Command,
        plan: Plan,
        place: u64,
    ) -> Result<(Told, Answered), StepFault>
        requires { PlanIsAllowed plan }
        ensures ok { IfOk result (λ r. RunsCommand (held C.directory facility.old) self.old intent.now command.now plan place r.1 r.0 (held C.directory facility.new) self.new) }
        ensures lawful { (test : Test) → result ≢ Err (Unlawful test) }
        ensures cannot { result ≡ Err NotExecutable → CannotExecute (held C.directory facility.old) self.old command.now (held C.directory facility.new) self.new }
        ensures allowed { IfOk result (λ r. AllByRecursion IsAllowed (event_records self.old.marks intent.now plan r.1)) }
    {
        let reply = self.give(facility, command)?;
        let told = self.settle(alloc, facility, intent, command, plan, &reply, place)?;
        Ok((told, Answered::Reply(reply)))
    }

    // Makes a disk call, and settles it.
    fn run_call<D: Disk>(
        &mut self,
        disk: &mut D,
        intent: &Intent,
        sent: &Sent,
    ) -> Result<(Told, Answered), StepFault>
        ensures answers { MatchResult result (λ r. RunsCall (record { alive = D.alive disk.old; contents = D.contents disk.old }) self.old intent.now sent.now r.1 r.0 (record { alive = D.alive disk.new; contents = D.contents disk.new }) self.new) (λ fault. fault ≡ faults.NoMemory) }
        ensures later { D.faults disk.old ≤ D.faults disk.new }
        ensures failed { IfOk result (λ r. r.1 ≡ answered.Failed → Rose (D.faults disk.old) (D.faults disk.new)) }
    {
        let done = self.call(disk, intent, sent);
        self.store(intent, done)
    }

    // Sends what was prepared, and settles what comes back.
    #[tactic(auto, using(crate::proofs::Allowed::called_allowed))]
    fn run<C: CacheFace, D: Disk>(
        &mut self,
        alloc: Global,
        facility: &mut Facility<C>,
        disk: &mut D,
        intent: &Intent,
        sent: &Sent,
        plan: Plan,
        place: u64,
    ) -> Result<(Told, Answered), StepFault>
        requires { PlanIsAllowed plan }
        ensures ok { IfOk result (λ r. Runs (world_of C.directory D.alive D.contents facility.old disk.old) self.old intent.now sent.now plan place r.1 r.0 (world_of C.directory D.alive D.contents facility.new disk.new) self.new) }
        ensures lawful { (test : Test) → result ≢ Err (Unlawful test) }
        ensures cannot { result ≡ Err NotExecutable → IsStopped (world_of C.directory D.alive D.contents facility.old disk.old) self.old sent.now (world_of C.directory D.alive D.contents facility.new disk.new) self.new }
        ensures allowed { IfOk result (λ r. AllByRecursion IsAllowed (event_records self.old.marks intent.now plan r.1)) }
        ensures later { D.faults disk.old ≤ D.faults disk.new }
        ensures failed { IfOk result (λ r. r.1 ≡ answered.Failed → Rose (D.faults disk.old) (D.faults disk.new)) }
    {
        match sent {
            Sent::None => Ok((self.settle_unsent(intent), Answered::None)),
            Sent::Command(command) => {
                self.run_command(alloc, facility, intent, command, plan, place)
            }
            Sent::AppendLog | Sent::ReadPage(_) | Sent::WritePage(_) => {
                self.run_call(disk, intent, sent)
            }
        }
    }

    // Who has the castout lock of the page that the member casts out.
    fn cast_holder<C: CacheFace>(&self, facility: &Facility<C>) -> Option<MemberId>
        ensures { result ≡ holder_in (held C.directory facility.now) self.now.cast }
    {
        match self.cast {
            Some(cast) => facility.castout_holder(cast.page),
            None => None,
        }
    }

    // A new event begins.
    fn begin(&mut self, place: u64)
        ensures { self.new ≡ begun self.old place }
    {
        self.marks.begin_event(place);
    }

    // Lets the policy go on.
    fn hand<P: Policy>(
        &mut self,
        alloc: Global,
        policy: &mut P,
        choice: u64,
        event: &Event,
        told: Told,
    ) -> Result<(), NoMemory>
        ensures { Ends self.old self.new }
    {
        let outcome = outcome_of(self.pages.as_slice(), told);
        policy.take(alloc, choice, event, &outcome, &mut self.marks)
    }

    /// Makes one event of the member, with this number: tests the intent, sends it, settles the answer, and lets the policy
    /// go on.
    ///
    /// Where memory was wanting, only the disk's faults are said to be told.
    pub fn step<C: CacheFace, D: Disk, P: Policy>(
        &mut self,
        alloc: Global,
        facility: &mut Facility<C>,
        disk: &mut D,
        policy: &mut P,
        choice: u64,
        intent: &Intent,
        place: u64,
    ) -> Result<(Sent, Answered), StepFault>
        ensures ok { IfOk result (λ r. Happens (world_of C.directory D.alive D.contents facility.old disk.old) self.old intent.now place r.0 r.1 (world_of C.directory D.alive D.contents facility.new disk.new) self.new) }
        ensures unlawful { (test : Test) → result ≡ Err (Unlawful test) → IsUnlawful (world_of C.directory D.alive D.contents facility.old disk.old) self.old intent.now place test (world_of C.directory D.alive D.contents facility.new disk.new) self.new }
        ensures cannot { result ≡ Err NotExecutable → IsNotExecutable (world_of C.directory D.alive D.contents facility.old disk.old) self.old intent.now place (world_of C.directory D.alive D.contents facility.new disk.new) }
        ensures later { D.faults disk.old ≤ D.faults disk.new }
        ensures failed { IfOk result (λ r. r.1 ≡ answered.Failed → Rose (D.faults disk.old) (D.faults disk.new)) }
    {
        let holder = self.cast_holder(facility);
        let Prepared { sent, plan } = self.prepare(alloc, intent, holder, place)?;
        self.begin(place);
        let (told, answered) = self.run(alloc, facility, disk, intent, &sent, plan, place)?;
        let event = Event {
            place,
            bell: facility.bell(self.marks.member()),
        };
        self.hand(alloc, policy, choice, &event, told)?;
        Ok((sent, answered))
    }
}
