ghost use Rattle.std.specs.Prelude.{◌≡◌, ◌+◌, length, IfOk};
ghost use Rattle.std.specs.List.{AllByRecursion};
ghost use Rattle.ds_model.specs.RecordBytes.{record_bytes, BodyFits, IsAllowed};
ghost use Rattle.log_trans.specs.Damage.{AreAllowed};
ghost use Rattle.disk_spots.specs.Spots.{place_from, spot_of};

use crate::spot::Spot;
use ds_base::NoMemory;
use ds_model::LogRecord;
use log_record::{Log, record_length};

/// Where the next record of a log begins. No log is so long that a number of 64 bits doesn't hold its length.
pub fn next_place(at: u64, it: &LogRecord) -> Result<u64, NoMemory>
    requires { BodyFits it.now.version it.now.body }
    ensures { IfOk result (λ next. next ≡ at + length (record_bytes it.now)) }
{
    at.checked_add(record_length(it) as u64).ok_or(NoMemory)
}

#[tactic(auto, using(crate::proofs::Fitting::fits_of))]
fn place_in(records: &[LogRecord], number: u128) -> Result<Option<u64>, NoMemory>
    requires { AllByRecursion IsAllowed records.now }
    ensures { IfOk result (λ found. found ≡ place_from number 0 records.now) }
{
    let mut at = 0;
    for record in records {
        if record.lrsn.number() == number {
            return Ok(Some(at));
        }
        at = next_place(at, record)?;
    }
    Ok(None)
}

/// Where the first record with this number begins, by the order of the logs, and in each by the order of its records.
pub fn spot_of(logs: &[Log], number: u128) -> Result<Option<Spot>, NoMemory>
    requires { AreAllowed logs.now }
    ensures { IfOk result (λ found. found ≡ spot_of number logs.now) }
{
    for log in logs {
        if let Some(at) = place_in(log.records(), number)? {
            return Ok(Some(Spot::Log {
                member: log.member,
                at,
            }));
        }
    }
    Ok(None)
}
