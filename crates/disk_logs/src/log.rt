ghost use Rattle.std.specs.Prelude.{IfOk};
ghost use Rattle.whole_logs.specs.Reaching.{IsRead};
ghost use Rattle.disk_logs.specs.Looking.{IsLooked};

use ds_base::{MemberId, NoMemory};
use log_record::Log;
use std::alloc::Global;
use torn_records::is_torn;
use whole_logs::{Reach, read_records, tail_laws};

/// What the bytes of a log are.
#[derive(Drop)]
pub enum Looked {
    /// A log of whole records, and then nothing or the front of one.
    Whole(Log),
    /// At this byte stands neither a record that may follow those before it nor the front of one.
    Broken { at: u64 },
}

// A log that was read up to a tail that is no whole record.
fn with_tail(alloc: Global, bytes: &[u8], log: Log) -> Result<Looked, NoMemory>
    requires { IsRead log.member bytes.now log }
    ensures { IfOk result (λ looked. IsLooked log.member bytes.now looked) }
{
    tail_laws();
    let at = log.length;
    let torn = is_torn(alloc, &bytes[at as usize..])?;
    if torn {
        Ok(Looked::Whole(log))
    } else {
        Ok(Looked::Broken { at })
    }
}

/// Whether the bytes are a log of the member, as the first clause of a sound disk says it, or where the first record begins
/// that can't stand there.
pub fn whole_log(alloc: Global, member: MemberId, bytes: &[u8]) -> Result<Looked, NoMemory>
    ensures { IfOk result (λ looked. IsLooked member bytes.now looked) }
{
    match read_records(alloc, member, bytes)? {
        Reach::Tail(log) => with_tail(alloc, bytes, log),
        Reach::Broken { at } => Ok(Looked::Broken { at }),
    }
}
