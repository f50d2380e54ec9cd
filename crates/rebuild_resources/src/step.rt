ghost use Rattle.std.specs.Prelude.{◌≡◌, ◌≢◌, ◌≤◌, Ok, Err, IfOk};
ghost use Rattle.ds_base.specs.Causes.{Rose};
ghost use Rattle.member_intents.specs.declared.outcome.Answered.TheVariants as answered;
ghost use Rattle.facility.specs.States.{held};
ghost use Rattle.rebuild_resources.specs.declared.intent.RebuildTest.{RebuildTest};
ghost use Rattle.rebuild_resources.specs.declared.intent.RebuildFault.TheVariants.{Unlawful, NotExecutable};
ghost use Rattle.rebuild_resources.specs.Needs.{need_of};
ghost use Rattle.rebuild_resources.specs.Events.{world_of, RunsCommand, CannotExecute, Runs, IsStopped, Happens, IsUnlawful, IsNotExecutable};

use crate::{
    Rebuild, RebuildFault, RebuildIntent, RebuildPolicy, RebuildSent, RebuildTest, RebuildTold,
};
use cache_structure::CacheFace;
use ds_disk::Disk;
use facility::{Command, Facility};
use member_intents::{Answered, Event};
use std::alloc::Global;

impl Rebuild {
    // Gives a command, and settles its reply.
    fn run_command<C: CacheFace>(
        &mut self,
        alloc: Global,
        facility: &mut Facility<C>,
        intent: &RebuildIntent,
        command: &Command,
    ) -> Result<(RebuildTold, Answered), RebuildFault>
        ensures ok { IfOk result (λ r. RunsCommand (held C.directory facility.old) self.old intent.now command.now r.1 r.0 (held C.directory facility.new) self.new) }
        ensures lawful { (test : RebuildTest) → result ≢ Err (Unlawful test) }
        ensures cannot { result ≡ Err NotExecutable → CannotExecute (held C.directory facility.old) self.old command.now (held C.directory facility.new) self.new }
    {
        let reply = self.give(facility, command)?;
        let told = self.settle_reply(alloc, intent, &reply)?;
        Ok((told, Answered::Reply(reply)))
    }

    // Sends what the intent needs, and settles what comes back.
    fn run<C: CacheFace, D: Disk>(
        &mut self,
        alloc: Global,
        facility: &mut Facility<C>,
        disk: &mut D,
        intent: &RebuildIntent,
        sent: &RebuildSent,
    ) -> Result<(RebuildTold, Answered), RebuildFault>
        ensures ok { IfOk result (λ r. Runs (world_of C.directory D.alive D.contents facility.old disk.old) self.old intent.now sent.now r.1 r.0 (world_of C.directory D.alive D.contents facility.new disk.new) self.new) }
        ensures lawful { (test : RebuildTest) → result ≢ Err (Unlawful test) }
        ensures cannot { result ≡ Err NotExecutable → IsStopped (world_of C.directory D.alive D.contents facility.old disk.old) self.old sent.now (world_of C.directory D.alive D.contents facility.new disk.new) self.new }
        ensures later { D.faults disk.old ≤ D.faults disk.new }
        ensures failed { IfOk result (λ r. r.1 ≡ answered.Failed → Rose (D.faults disk.old) (D.faults disk.new)) }
    {
        match sent {
            RebuildSent::None => Ok((RebuildTold::Stepped, Answered::None)),
            RebuildSent::Command(command) => self.run_command(alloc, facility, intent, command),
            RebuildSent::LogLength(_)
            | RebuildSent::ReadLog { .. }
            | RebuildSent::ReadPage(_)
            | RebuildSent::WritePage(_) => self.run_call(alloc, disk, sent),
        }
    }

    // Makes the event of a lawful intent, which sends this.
    fn make<C: CacheFace, D: Disk, P: RebuildPolicy>(
        &mut self,
        alloc: Global,
        facility: &mut Facility<C>,
        disk: &mut D,
        policy: &mut P,
        intent: &RebuildIntent,
        sent: RebuildSent,
        place: u64,
    ) -> Result<(RebuildSent, Answered), RebuildFault>
        requires { need_of self.old intent.now ≡ Ok sent }
        ensures ok { IfOk result (λ r. Happens (world_of C.directory D.alive D.contents facility.old disk.old) self.old r.0 r.1 (world_of C.directory D.alive D.contents facility.new disk.new) self.new) }
        ensures lawful { (test : RebuildTest) → result ≢ Err (Unlawful test) }
        ensures cannot { result ≡ Err NotExecutable → IsNotExecutable (world_of C.directory D.alive D.contents facility.old disk.old) self.old (world_of C.directory D.alive D.contents facility.new disk.new) self.new }
        ensures later { D.faults disk.old ≤ D.faults disk.new }
        ensures failed { IfOk result (λ r. r.1 ≡ answered.Failed → Rose (D.faults disk.old) (D.faults disk.new)) }
    {
        let (told, answered) = self.run(alloc, facility, disk, intent, &sent)?;
        let event = Event {
            place,
            bell: facility.bell(self.member),
        };
        policy.take(&event, told, self);
        Ok((sent, answered))
    }

    /// Makes one event of the rebuild, with this number: asks the policy what it wants, tests that, sends it, settles the
    /// answer, and lets the policy go on.
    ///
    /// Where memory was wanting, only the disk's faults are said to be told, and the rebuild is given up.
    pub fn step<C: CacheFace, D: Disk, P: RebuildPolicy>(
        &mut self,
        alloc: Global,
        facility: &mut Facility<C>,
        disk: &mut D,
        policy: &mut P,
        place: u64,
    ) -> Result<(RebuildSent, Answered), RebuildFault>
        ensures ok { IfOk result (λ r. Happens (world_of C.directory D.alive D.contents facility.old disk.old) self.old r.0 r.1 (world_of C.directory D.alive D.contents facility.new disk.new) self.new) }
        ensures unlawful { (test : RebuildTest) → result ≡ Err (Unlawful test) → IsUnlawful (world_of C.directory D.alive D.contents facility.old disk.old) self.old test (world_of C.directory D.alive D.contents facility.new disk.new) self.new }
        ensures cannot { result ≡ Err NotExecutable → IsNotExecutable (world_of C.directory D.alive D.contents facility.old disk.old) self.old (world_of C.directory D.alive D.contents facility.new disk.new) self.new }
        ensures later { D.faults disk.old ≤ D.faults disk.new }
        ensures failed { IfOk result (λ r. r.1 ≡ answered.Failed → Rose (D.faults disk.old) (D.faults disk.new)) }
    {
        let intent = policy.intent();
        match self.need(&intent) {
            Ok(sent) => self.make(alloc, facility, disk, policy, &intent, sent, place),
            Err(test) => Err(RebuildFault::Unlawful(test)),
        }
    }
}
