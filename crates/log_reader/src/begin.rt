//! Where the records begin that were read of a log.

ghost use Rattle.std.specs.Prelude.{◌≡◌, ◌+◌, IfOk};
ghost use Rattle.std.specs.List.{AllByRecursion};
ghost use Rattle.ds_model.specs.RecordBytes.{IsAllowed};
ghost use Rattle.log_reader.specs.Begin.{behind_all, begin_of};

use ds_base::NoMemory;
use ds_model::LogRecord;
use log_record::{Log, record_length};

// No log is so long that a number of 64 bits doesn't hold its length.
fn behind(place: u64, more: u64) -> Result<u64, NoMemory>
    ensures { IfOk result (λ sum. sum ≡ place + more) }
{
    place.checked_add(more).ok_or(NoMemory)
}

// The byte behind these records, the first of which begins at byte 0.
#[tactic(auto, using(crate::proofs::Fitting::fits_of))]
fn behind_all(records: &[LogRecord]) -> Result<u64, NoMemory>
    requires { AllByRecursion IsAllowed records.now }
    ensures { IfOk result (λ at. at ≡ behind_all 0 records.now) }
{
    let mut at = 0;
    for it in records {
        at = behind(at, record_length(it) as u64)?;
    }
    Ok(at)
}

/// The byte of the log that stands so many bytes behind the first of the records that were read.
pub fn place_in(log: &Log, at: u64) -> Result<u64, NoMemory>
    requires { AllByRecursion IsAllowed log.now.records }
    ensures { IfOk result (λ place. place ≡ begin_of log.now + at) }
{
    let size = behind_all(log.records())?;
    behind(log.length.saturating_sub(size), at)
}
