ghost use Rattle.std.specs.Prelude.{◌≡◌, ◌≢◌, ◌≤◌, Ok, Err, IfOk};
ghost use Rattle.ds_base.specs.Causes.{Rose};
ghost use Rattle.member_intents.specs.declared.outcome.Answered.TheVariants as answered;
ghost use Rattle.facility.specs.States.{held};
ghost use Rattle.restart_marks.specs.declared.intent.RestartTest.{RestartTest};
ghost use Rattle.restart_marks.specs.declared.intent.RestartFault.TheVariants.{Unlawful, NotExecutable};
ghost use Rattle.restart_marks.specs.Needs.{need_of};
ghost use Rattle.restart_resources.specs.Events.{world_of, RunsCommand, CannotExecute, Runs, IsStopped, Ends, Happens, IsUnlawful, IsNotExecutable};

use crate::outcome::outcome_of;
use crate::{RestartPolicy, RestartResources};
use cache_structure::CacheFace;
use ds_base::NoMemory;
use ds_disk::Disk;
use facility::{Command, Facility};
use member_intents::{Answered, Event};
use restart_marks::{RestartFault, RestartIntent, RestartSent, RestartTold};
use std::alloc::Global;

impl RestartResources {
    // Gives a command, and settles its reply.
    fn run_command<C: CacheFace>(
        &mut self,
        facility: &mut Facility<C>,
        intent: &RestartIntent,
        command: &Command,
    ) -> Result<(RestartTold, Answered), RestartFault>
        ensures ok { IfOk result (λ r. RunsCommand (held C.directory facility.old) self.old intent.now command.now r.1 r.0 (held C.directory facility.new) self.new) }
        ensures lawful { (test : RestartTest) → result ≢ Err (Unlawful test) }
        ensures cannot { result ≡ Err NotExecutable → CannotExecute (held C.directory facility.old) self.old command.now (held C.directory facility.new) self.new }
    {
        let reply = self.give(facility, command)?;
        let cells = facility.cells_for(self.marks.member(), command);
        let told = self.settle_reply(intent, &reply, cells)?;
        Ok((told, Answered::Reply(reply)))
    }

    // Sends what the intent needs, and settles what comes back.
    fn run<C: CacheFace, D: Disk>(
        &mut self,
        alloc: Global,
        facility: &mut Facility<C>,
        disk: &mut D,
        intent: &RestartIntent,
        sent: &RestartSent,
    ) -> Result<(RestartTold, Answered), RestartFault>
        ensures ok { IfOk result (λ r. Runs (world_of C.directory D.alive D.contents facility.old disk.old) self.old intent.now sent.now r.1 r.0 (world_of C.directory D.alive D.contents facility.new disk.new) self.new) }
        ensures lawful { (test : RestartTest) → result ≢ Err (Unlawful test) }
        ensures cannot { result ≡ Err NotExecutable → IsStopped (world_of C.directory D.alive D.contents facility.old disk.old) self.old sent.now (world_of C.directory D.alive D.contents facility.new disk.new) self.new }
        ensures later { D.faults disk.old ≤ D.faults disk.new }
        ensures failed { IfOk result (λ r. r.1 ≡ answered.Failed → Rose (D.faults disk.old) (D.faults disk.new)) }
    {
        match sent {
            RestartSent::None => Ok((RestartTold::Stepped, Answered::None)),
            RestartSent::Command(command) => self.run_command(facility, intent, command),
            RestartSent::LogLength
            | RestartSent::ReadLog { .. }
            | RestartSent::CutLog { .. }
            | RestartSent::AppendLog
            | RestartSent::ReadPage(_) => self.run_call(alloc, disk, sent),
        }
    }

    // Lets the policy go on.
    fn hand<P: RestartPolicy>(
        &mut self,
        alloc: Global,
        policy: &mut P,
        event: &Event,
        told: RestartTold,
    ) -> Result<(), NoMemory>
        ensures { Ends self.old self.new }
    {
        let outcome = outcome_of(&self.page, told);
        policy.take(alloc, event, &outcome, &mut self.marks)
    }

    // Makes the event of a lawful intent, which sends this.
    fn make<C: CacheFace, D: Disk, P: RestartPolicy>(
        &mut self,
        alloc: Global,
        facility: &mut Facility<C>,
        disk: &mut D,
        policy: &mut P,
        intent: &RestartIntent,
        sent: RestartSent,
        place: u64,
    ) -> Result<(RestartSent, Answered), RestartFault>
        requires { need_of self.old.marks intent.now ≡ Ok sent }
        ensures ok { IfOk result (λ r. Happens (world_of C.directory D.alive D.contents facility.old disk.old) self.old r.0 r.1 (world_of C.directory D.alive D.contents facility.new disk.new) self.new) }
        ensures lawful { (test : RestartTest) → result ≢ Err (Unlawful test) }
        ensures cannot { result ≡ Err NotExecutable → IsNotExecutable (world_of C.directory D.alive D.contents facility.old disk.old) self.old (world_of C.directory D.alive D.contents facility.new disk.new) self.new }
        ensures later { D.faults disk.old ≤ D.faults disk.new }
        ensures failed { IfOk result (λ r. r.1 ≡ answered.Failed → Rose (D.faults disk.old) (D.faults disk.new)) }
    {
        let (told, answered) = self.run(alloc, facility, disk, intent, &sent)?;
        let event = Event {
            place,
            bell: facility.bell(self.marks.member()),
        };
        self.hand(alloc, policy, &event, told)?;
        Ok((sent, answered))
    }

    /// Makes one event of the restarting member, with this number: asks the policy what it wants, tests that, sends it,
    /// settles the answer, and lets the policy go on.
    ///
    /// Where memory was wanting, only the disk's faults are said to be told, and the restart is given up.
    pub fn step<C: CacheFace, D: Disk, P: RestartPolicy>(
        &mut self,
        alloc: Global,
        facility: &mut Facility<C>,
        disk: &mut D,
        policy: &mut P,
        place: u64,
    ) -> Result<(RestartSent, Answered), RestartFault>
        ensures ok { IfOk result (λ r. Happens (world_of C.directory D.alive D.contents facility.old disk.old) self.old r.0 r.1 (world_of C.directory D.alive D.contents facility.new disk.new) self.new) }
        ensures unlawful { (test : RestartTest) → result ≡ Err (Unlawful test) → IsUnlawful (world_of C.directory D.alive D.contents facility.old disk.old) self.old test (world_of C.directory D.alive D.contents facility.new disk.new) self.new }
        ensures cannot { result ≡ Err NotExecutable → IsNotExecutable (world_of C.directory D.alive D.contents facility.old disk.old) self.old (world_of C.directory D.alive D.contents facility.new disk.new) self.new }
        ensures later { D.faults disk.old ≤ D.faults disk.new }
        ensures failed { IfOk result (λ r. r.1 ≡ answered.Failed → Rose (D.faults disk.old) (D.faults disk.new)) }
    {
        let intent = policy.intent(&self.marks);
        match self.marks.need(&intent) {
            Ok(sent) => self.make(alloc, facility, disk, policy, &intent, sent, place),
            Err(test) => Err(RestartFault::Unlawful(test)),
        }
    }
}
