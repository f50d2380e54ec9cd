ghost use Rattle.std.specs.Prelude.{◌≡◌, IfOk};
ghost use Rattle.std.specs.List.{AllByRecursion};
ghost use Rattle.ds_model.specs.RecordBytes.{IsAllowed};
ghost use Rattle.log_trans.specs.Damage.{AreAllowed};
ghost use Rattle.disk_spots.specs.Spots.{has_drawn, drawn_place_from, drawn_spot_of};

use crate::search::next_place;
use crate::spot::Spot;
use ds_base::NoMemory;
use ds_model::LogRecord;
use log_record::{Log, is_drawn};

fn has_drawn(it: &LogRecord, number: u128) -> bool
    ensures { result ≡ has_drawn number it.now }
{
    is_drawn(&it.body) && it.lrsn.number() == number
}

#[tactic(auto, using(crate::proofs::Fitting::fits_of))]
fn drawn_place_in(records: &[LogRecord], number: u128) -> Result<Option<u64>, NoMemory>
    requires { AllByRecursion IsAllowed records.now }
    ensures { IfOk result (λ found. found ≡ drawn_place_from number 0 records.now) }
{
    let mut at = 0;
    for record in records {
        if has_drawn(record, number) {
            return Ok(Some(at));
        }
        at = next_place(at, record)?;
    }
    Ok(None)
}

/// Where the first record begins for which this number was drawn, by the order of the logs, and in each by the order of its
/// records. Other records may repeat the number.
pub fn drawn_spot_of(logs: &[Log], number: u128) -> Result<Option<Spot>, NoMemory>
    requires { AreAllowed logs.now }
    ensures { IfOk result (λ found. found ≡ drawn_spot_of number logs.now) }
{
    for log in logs {
        if let Some(at) = drawn_place_in(log.records(), number)? {
            return Ok(Some(Spot::Log {
                member: log.member,
                at,
            }));
        }
    }
    Ok(None)
}
