//! Commands to the facility. None of a rebuild's reads or fills the page that is lent with it.

ghost use Rattle.std.specs.Prelude.{◌≡◌, IfOk, IfErr, OnErr};
ghost use Rattle.facility.specs.Commands.{CanExecute};
ghost use Rattle.facility.specs.States.{held};
ghost use Rattle.rebuild_resources.specs.declared.intent.RebuildFault.TheVariants.{NotExecutable};
ghost use Rattle.rebuild_resources.specs.Lending.{Gives};

use crate::{Rebuild, RebuildFault};
use cache_structure::CacheFace;
use facility::{Command, Facility, Reply};

impl Rebuild {
    /// Gives the command.
    pub(crate) fn give<C: CacheFace>(
        &mut self,
        facility: &mut Facility<C>,
        command: &Command,
    ) -> Result<Reply, RebuildFault>
        ensures ok { IfOk result (λ answer. Gives self.old (held C.directory facility.old) command.now answer self.new (held C.directory facility.new)) }
        ensures fault { IfErr result (λ fault. fault ≡ NotExecutable) }
        ensures cannot { OnErr result (¬ CanExecute (held C.directory facility.old) self.old.member command.now) }
        ensures same { OnErr result (self.new ≡ self.old) }
        ensures facility { OnErr result (facility.new ≡ facility.old) }
    {
        if !facility.can_execute(self.member, command) {
            return Err(RebuildFault::NotExecutable);
        }
        Ok(facility.command(self.member, command, &mut self.page))
    }
}
