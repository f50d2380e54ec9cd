ghost use Rattle.std.specs.Prelude.{◌≡◌, ◌+◌, IfOk};
ghost use Rattle.std.specs.List.{AllByRecursion};
ghost use Rattle.ds_model.specs.RecordBytes.{IsAllowed};
ghost use Rattle.log_trans.specs.Damage.{AreAllowed};
ghost use Rattle.restart_plan.specs.Greatest.{no_number, with_number, greatest_from, greatest_among};

use ds_base::{Lrsn, MemberId, NoMemory, Volume};
use ds_model::LogRecord;
use log_record::{Log, record_length};

// Where the number of a record begins.
const NUMBER_AT: u64 = 6;

/// The greatest number (LRSN), and the byte at which it stands first.
#[derive(Clone, Copy, Debug, PartialEq, Eq)]
pub struct Greatest {
    pub lrsn: Lrsn,
    pub volume: Volume,
    pub at: u64,
}

// No log is so long that a number of 64 bits doesn't hold its length.
fn behind(at: u64, more: u64) -> Result<u64, NoMemory>
    ensures { IfOk result (λ sum. sum ≡ at + more) }
{
    at.checked_add(more).ok_or(NoMemory)
}

fn no_number() -> Greatest
    ensures { result ≡ no_number }
{
    let (Some(lrsn), Some(member)) = (Lrsn::new(0), MemberId::new(1)) else {
        unreachable!()
    };
    Greatest {
        lrsn,
        volume: Volume::Log(member),
        at: NUMBER_AT,
    }
}

fn with_number(
    greatest: Greatest,
    member: MemberId,
    at: u64,
    lrsn: Lrsn,
) -> Result<Greatest, NoMemory>
    ensures { IfOk result (λ g. g ≡ with_number greatest member at lrsn) }
{
    if lrsn.number() <= greatest.lrsn.number() {
        return Ok(greatest);
    }
    Ok(Greatest {
        lrsn,
        volume: Volume::Log(member),
        at: behind(at, NUMBER_AT)?,
    })
}

#[tactic(auto, using(crate::proofs::Fitting::fits_of))]
fn greatest_in(
    found: Greatest,
    member: MemberId,
    records: &[LogRecord],
) -> Result<Greatest, NoMemory>
    requires { AllByRecursion IsAllowed records.now }
    ensures { IfOk result (λ g. g ≡ greatest_from member 0 found records.now) }
{
    let mut greatest = found;
    let mut at = 0;
    for record in records {
        greatest = with_number(greatest, member, at, record.lrsn)?;
        at = behind(at, record_length(record) as u64)?;
    }
    Ok(greatest)
}

/// The greatest number of the logs, and its place in the first record that has it. Where no number is above 0 it is 0, and
/// its place that of the first number of the first log.
pub fn greatest_at(logs: &[Log]) -> Result<Greatest, NoMemory>
    requires { AreAllowed logs.now }
    ensures { IfOk result (λ g. g ≡ greatest_among no_number logs.now) }
{
    let mut greatest = no_number();
    for log in logs {
        greatest = greatest_in(greatest, log.member, log.records())?;
    }
    Ok(greatest)
}
