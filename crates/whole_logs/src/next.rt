ghost use Rattle.std.specs.Prelude.{◌≤◌, length, drop, IfOk};
ghost use Rattle.whole_logs.specs.Breaks.{IsNext};

use ds_base::NoMemory;
use ds_model::LogRecord;
use log_record::{RecordFault, read_record, reading_laws};
use std::alloc::Global;

/// What stands in a log behind whole records.
#[derive(Drop)]
pub enum Next {
    /// A record that may follow them, and its length.
    Whole(LogRecord, usize),
    /// The end of the log, or what is no whole record.
    Tail,
    /// Neither a record that may follow them nor one that was cut short.
    Broken,
}

// What stands at this byte behind records of which the last has this number.
pub fn next_at(alloc: Global, bytes: &[u8], at: usize, low: u128) -> Result<Next, NoMemory>
    requires { at ≤ length bytes.now }
    ensures { IfOk result (λ next. IsNext low (drop at bytes.now) next) }
{
    reading_laws();
    match read_record(alloc, &bytes[at..]) {
        Ok((found, length)) => {
            if low <= found.lrsn.number() {
                Ok(Next::Whole(found, length))
            } else {
                Ok(Next::Broken)
            }
        }
        Err(RecordFault::NotWhole) => Ok(Next::Tail),
        Err(RecordFault::Bad { .. }) => Ok(Next::Broken),
        Err(RecordFault::NoMemory) => Err(NoMemory),
    }
}
