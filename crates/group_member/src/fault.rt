ghost use Rattle.std.specs.Prelude.{◌≡◌};
ghost use Rattle.group_member.specs.Faults.{rebuild_fault, restart_fault, step_fault};
ghost use Rattle.group_member.specs.declared.fault.EventFault.TheVariants as faults;

use ds_base::NoMemory;
use member_intents::StepFault;
use rebuild_resources::RebuildFault;
use restart_marks::RestartFault;

/// Why the event of a member wasn't made: what was wanted may not be done, or memory was wanting.
#[derive(Clone, Copy, Debug, PartialEq, Eq)]
pub enum EventFault {
    Unlawful,
    NoMemory,
}

impl From<NoMemory> for EventFault {
    ghost from_gives = { λ _ e. e ≡ faults.NoMemory };

    fn from(_: NoMemory) -> Self {
        EventFault::NoMemory
    }
}

impl From<StepFault> for EventFault {
    ghost from_gives = { λ fault e. e ≡ step_fault fault };

    fn from(fault: StepFault) -> Self {
        match fault {
            StepFault::Unlawful(_) | StepFault::NotExecutable => EventFault::Unlawful,
            StepFault::NoMemory => EventFault::NoMemory,
        }
    }
}

impl From<RebuildFault> for EventFault {
    ghost from_gives = { λ fault e. e ≡ rebuild_fault fault };

    fn from(fault: RebuildFault) -> Self {
        match fault {
            RebuildFault::Unlawful(_) | RebuildFault::NotExecutable => EventFault::Unlawful,
            RebuildFault::NoMemory => EventFault::NoMemory,
        }
    }
}

impl From<RestartFault> for EventFault {
    ghost from_gives = { λ fault e. e ≡ restart_fault fault };

    fn from(fault: RestartFault) -> Self {
        match fault {
            RestartFault::Unlawful(_) | RestartFault::NotExecutable => EventFault::Unlawful,
            RestartFault::NoMemory => EventFault::NoMemory,
        }
    }
}
