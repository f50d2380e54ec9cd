ghost use Rattle.std.specs.Prelude.{◌≡◌, ◌+◌, Ok, Err, IfOk, IfSome, IfNone};
ghost use Rattle.std.specs.List.{AllByRecursion};
ghost use Rattle.ds_model.specs.RecordBytes.{IsAllowed};
ghost use Rattle.log_trans.specs.Damage.{damage_from, log_damage, AreAllowed};

use crate::known::Known;
use ds_base::{MemberId, NoMemory};
use ds_model::LogRecord;
use log_record::{Log, record_length};
use std::alloc::Global;

/// The number that begins at this byte of the member's log can't stand there.
#[derive(Clone, Copy, Debug, PartialEq, Eq)]
pub struct Damaged {
    pub member: MemberId,
    pub at: u64,
}

// No log is so long that a number of 64 bits doesn't hold its length.
fn behind(at: u64, more: u64) -> Result<u64, NoMemory>
    ensures { IfOk result (λ sum. sum ≡ at + more) }
{
    at.checked_add(more).ok_or(NoMemory)
}

// Where the first number of the log begins that can't stand there.
#[tactic(auto, using(crate::proofs::Fitting::fits_of))]
fn damage_in(
    alloc: Global,
    known: &mut Known,
    member: MemberId,
    records: &[LogRecord],
) -> Result<Option<u64>, NoMemory>
    requires { AllByRecursion IsAllowed records.now }
    ensures sound { IfOk result (λ found. IfNone found (damage_from member known.old 0 0 records.now ≡ Ok known.new)) }
    ensures damaged { IfOk result (λ found. IfSome found (λ at. damage_from member known.old 0 0 records.now ≡ Err at)) }
{
    let mut low = 0;
    let mut at = 0;
    for record in records {
        if let Some(field) = known.fault(alloc, member, low, record) {
            return Ok(Some(behind(at, field)?));
        }
        known.enter(alloc, member, record)?;
        low = record.lrsn.number();
        at = behind(at, record_length(record) as u64)?;
    }
    Ok(None)
}

/// The first number of the logs that breaks what the numbers of sound logs keep to, by the order of the logs, and in each
/// by the order of its records: numbers never fall in a log; those that were drawn differ; a transaction stands in one
/// log; its compensations undo its row changes from the last to the first, never beside a Commit; it has one Commit at
/// most; and an Ended follows the Commit or the last compensation.
///
/// It takes time in the number of records times its logarithm.
pub fn find_log_damage(alloc: Global, logs: &[Log]) -> Result<Option<Damaged>, NoMemory>
    requires { AreAllowed logs.now }
    ensures { IfOk result (λ found. found ≡ log_damage logs.now) }
{
    let mut known = Known::new(alloc);
    for log in logs {
        let member = log.member;
        if let Some(at) = damage_in(alloc, &mut known, member, log.records())? {
            return Ok(Some(Damaged { member, at }));
        }
    }
    Ok(None)
}
