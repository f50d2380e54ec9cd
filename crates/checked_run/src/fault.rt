ghost use Rattle.std.specs.Prelude.{◌≡◌, ◌≢◌, ℕ, Some};
ghost use Rattle.group_core.specs.Goes.{IsFailed};
ghost use Rattle.group_core.specs.declared.fault.RunFault.TheVariants as fault;
ghost use Rattle.opening_rows.specs.declared.fault.LogsFault.TheVariants as reading;
ghost use Rattle.checked_run.specs.Restarted.{fault_by};

use ds_base::Volume;
use group_core::RunFault;
use opening_rows::LogsFault;

/// Why a disk wasn't opened whose logs were not read.
pub fn fault_of(why: LogsFault) -> RunFault
    ensures is { result ≡ fault_by why }
    ensures failed { IsFailed (Some result) → why ≡ reading.Failed }
    ensures lawful { (place : ℕ) → result ≢ fault.Unlawful place }
{
    match why {
        LogsFault::Failed => RunFault::Failed,
        LogsFault::Damaged { member, at } => RunFault::Damaged {
            volume: Volume::Log(member),
            at,
        },
        LogsFault::NoMemory => RunFault::NoMemory,
    }
}
