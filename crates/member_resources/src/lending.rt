//! Pages that are lent to the facility.

ghost use Rattle.std.specs.Prelude.{◌≡◌, ◌<◌, length, if◌then◌else◌, IfOk, IfErr, OnOk, OnErr};
ghost use Rattle.member_marks.specs.Frames.{frame_in};
ghost use Rattle.member_resources.specs.declared.lending.Lent.TheVariants.{Frame, Buffer, Spare};
ghost use Rattle.member_intents.specs.declared.test.StepFault.TheVariants.{NotExecutable};
ghost use Rattle.facility.specs.Commands.{AsksSlot, CanExecute};
ghost use Rattle.facility.specs.States.{held};
ghost use Rattle.member_resources.specs.Lending.{framed, lent_of, IsThere, Executed, Gives};

use crate::Resources;
use cache_structure::CacheFace;
use facility::{Command, Facility, Reply};
use member_intents::StepFault;

/// The page that a command reads or fills.
#[derive(Clone, Copy, Debug, PartialEq, Eq)]
pub enum Lent {
    /// That of this frame.
    Frame(u16),
    /// That of the castout.
    Buffer,
    /// One whose bytes nobody needs.
    Spare,
}

impl Resources {
    fn framed(&self, at: u16) -> Lent
        ensures exact { result ≡ framed self.now at }
        ensures there { IsThere self.now result }
    {
        if (at as usize) < self.pages.len() {
            Lent::Frame(at)
        } else {
            Lent::Spare
        }
    }

    // A changed frame keeps its bytes.
    fn read_lent(&self, at: u16) -> Lent
        ensures exact { result ≡ (if (frame_in self.now.marks.heads at).changed then Spare else framed self.now at) }
        ensures there { IsThere self.now result }
    {
        if self.marks.frame(at).changed {
            Lent::Spare
        } else {
            self.framed(at)
        }
    }

    fn lent(&self, command: &Command) -> Lent
        ensures exact { result ≡ lent_of self.now command.now }
        ensures there { IsThere self.now result }
    {
        match *command {
            Command::Read { index, .. } => self.read_lent(index),
            Command::Write { index, .. } => self.framed(index),
            Command::CastoutRead { .. } => Lent::Buffer,
            _ => Lent::Spare,
        }
    }

    fn give_frame<C: CacheFace>(
        &mut self,
        facility: &mut Facility<C>,
        command: &Command,
        at: u16,
    ) -> Reply
        requires can { CanExecute (held C.directory facility.old) self.old.marks.member command.now }
        requires there { at < length self.old.pages }
        ensures { Executed self.old (held C.directory facility.old) command.now (Frame at) result self.new (held C.directory facility.new) }
    {
        let member = self.marks.member();
        facility.command(member, command, &mut self.pages[at as usize])
    }

    fn give_buffer<C: CacheFace>(&mut self, facility: &mut Facility<C>, command: &Command) -> Reply
        requires { CanExecute (held C.directory facility.old) self.old.marks.member command.now }
        ensures { Executed self.old (held C.directory facility.old) command.now Buffer result self.new (held C.directory facility.new) }
    {
        let member = self.marks.member();
        facility.command(member, command, &mut self.buffer)
    }

    fn give_spare<C: CacheFace>(&mut self, facility: &mut Facility<C>, command: &Command) -> Reply
        requires { CanExecute (held C.directory facility.old) self.old.marks.member command.now }
        ensures { Executed self.old (held C.directory facility.old) command.now Spare result self.new (held C.directory facility.new) }
    {
        let member = self.marks.member();
        facility.command(member, command, &mut self.spare)
    }

    // Gives the command with this page.
    fn give_with<C: CacheFace>(
        &mut self,
        facility: &mut Facility<C>,
        command: &Command,
        lent: Lent,
    ) -> Reply
        requires can { CanExecute (held C.directory facility.old) self.old.marks.member command.now }
        requires there { IsThere self.old lent }
        ensures { Executed self.old (held C.directory facility.old) command.now lent result self.new (held C.directory facility.new) }
    {
        match lent {
            Lent::Frame(at) => self.give_frame(facility, command, at),
            Lent::Buffer => self.give_buffer(facility, command),
            Lent::Spare => self.give_spare(facility, command),
        }
    }

    /// Gives the command, with the page that it reads or fills.
    pub(crate) fn give<C: CacheFace>(
        &mut self,
        facility: &mut Facility<C>,
        command: &Command,
    ) -> Result<Reply, StepFault>
        ensures ok { IfOk result (λ answer. Gives self.old (held C.directory facility.old) command.now answer self.new (held C.directory facility.new)) }
        ensures slot { OnOk result (AsksSlot command.now) }
        ensures fault { IfErr result (λ fault. fault ≡ NotExecutable) }
        ensures cannot { OnErr result (¬ CanExecute (held C.directory facility.old) self.old.marks.member command.now) }
        ensures same { OnErr result (self.new ≡ self.old) }
        ensures facility { OnErr result (facility.new ≡ facility.old) }
    {
        if !facility.can_execute(self.marks.member(), command) {
            return Err(StepFault::NotExecutable);
        }
        let lent = self.lent(command);
        Ok(self.give_with(facility, command, lent))
    }
}
