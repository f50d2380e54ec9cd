ghost use Rattle.std.specs.Prelude.{◌≡◌};
ghost use Rattle.run_replay.specs.declared.fault.ReplayFault.TheVariants as faults;

use ds_base::NoMemory;

/// Why nothing is told of a run.
#[derive(Clone, Copy, Debug, PartialEq, Eq)]
pub enum ReplayFault {
    /// The script has no transaction of this name.
    NoTransaction,
    /// The event at this place isn't what the trace says of it: the trace is of another script, of other sizes, or of a folder
    /// that wasn't empty.
    Parted { place: u64 },
    NoMemory,
}

impl From<NoMemory> for ReplayFault {
    ghost from_gives = { λ _ e. e ≡ faults.NoMemory };

    fn from(_: NoMemory) -> Self {
        ReplayFault::NoMemory
    }
}
