ghost use Rattle.std.specs.Prelude.{◌≡◌, ◌+◌, ◌<◌, ◌^◌, ◌↔◌, IsTrue};
ghost use Rattle.log_trans.specs.Numbers.{greatest};

use ds_base::{LRSN_END, Lrsn};
use ds_model::LogRecord;
use log_record::Log;

fn greatest_of(records: &[LogRecord]) -> u128
    ensures { result ≡ greatest records.now }
{
    let mut last = 0;
    for record in records {
        last = record.lrsn.number().max(last);
    }
    last
}

/// The greatest number of the log's records, 0 where it has none.
pub fn greatest_number(log: &Log) -> u128
    ensures { result ≡ greatest log.now.records }
{
    greatest_of(log.records())
}

/// Whether the numbers above this one are at least as many as the row changes that are to be compensated.
pub fn has_numbers(counter: Lrsn, changes: u64) -> bool
    ensures { IsTrue result ↔ (counter + changes < 2 ^ 80) }
{
    u128::from(changes) < LRSN_END - counter.number()
}
