//! The page that is lent to the facility.

ghost use Rattle.std.specs.Prelude.{◌≡◌, true, false, if◌then◌else◌, IfOk, IfErr, OnOk, OnErr};
ghost use Rattle.restart_marks.specs.declared.intent.RestartFault.TheVariants.{NotExecutable};
ghost use Rattle.facility.specs.Commands.{AsksSlot, CanExecute};
ghost use Rattle.facility.specs.States.{held};
ghost use Rattle.restart_resources.specs.Lending.{is_hand, Executed, Gives};

use crate::RestartResources;
use cache_structure::CacheFace;
use facility::{Command, Facility, Reply};
use restart_marks::RestartFault;

impl RestartResources {
    // Whether the page in hand is lent to the command. A changed page isn't filled.
    fn is_hand(&self, command: &Command) -> bool
        ensures { result ≡ is_hand self.now command.now }
    {
        match command {
            Command::Read { .. } => !self.marks.hand().changed,
            Command::Write { .. } => true,
            _ => false,
        }
    }

    fn give_page<C: CacheFace>(&mut self, facility: &mut Facility<C>, command: &Command) -> Reply
        requires { CanExecute (held C.directory facility.old) self.old.marks.member command.now }
        ensures { Executed self.old (held C.directory facility.old) command.now true result self.new (held C.directory facility.new) }
    {
        let member = self.marks.member();
        facility.command(member, command, &mut self.page)
    }

    fn give_spare<C: CacheFace>(&mut self, facility: &mut Facility<C>, command: &Command) -> Reply
        requires { CanExecute (held C.directory facility.old) self.old.marks.member command.now }
        ensures { Executed self.old (held C.directory facility.old) command.now false result self.new (held C.directory facility.new) }
    {
        let member = self.marks.member();
        facility.command(member, command, &mut self.spare)
    }

    fn give_with<C: CacheFace>(
        &mut self,
        facility: &mut Facility<C>,
        command: &Command,
        is_hand: bool,
    ) -> Reply
        requires { CanExecute (held C.directory facility.old) self.old.marks.member command.now }
        ensures { Executed self.old (held C.directory facility.old) command.now is_hand result self.new (held C.directory facility.new) }
    {
        if is_hand {
            self.give_page(facility, command)
        } else {
            self.give_spare(facility, command)
        }
    }

    /// Gives the command, with the page that it reads or fills.
    pub(crate) fn give<C: CacheFace>(
        &mut self,
        facility: &mut Facility<C>,
        command: &Command,
    ) -> Result<Reply, RestartFault>
        ensures ok { IfOk result (λ answer. Gives self.old (held C.directory facility.old) command.now answer self.new (held C.directory facility.new)) }
        ensures slot { OnOk result (AsksSlot command.now) }
        ensures fault { IfErr result (λ fault. fault ≡ NotExecutable) }
        ensures cannot { OnErr result (¬ CanExecute (held C.directory facility.old) self.old.marks.member command.now) }
        ensures same { OnErr result (self.new ≡ self.old) }
        ensures facility { OnErr result (facility.new ≡ facility.old) }
    {
        if !facility.can_execute(self.marks.member(), command) {
            return Err(RestartFault::NotExecutable);
        }
        let is_hand = self.is_hand(command);
        Ok(self.give_with(facility, command, is_hand))
    }
}
