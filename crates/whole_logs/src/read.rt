ghost use Rattle.std.specs.Prelude.{◌≡◌, ℕ, List, drop, IfOk};
ghost use Rattle.ds_model.specs.Logs.{IsTorn};
ghost use Rattle.log_record.specs.declared.log.Log.{Log};
ghost use Rattle.sound_disk.specs.Whole_logs.{IsWholeLog};
ghost use Rattle.whole_logs.specs.Breaks.{BreaksOff};
ghost use Rattle.whole_logs.specs.Reaching.{IsRead, Reaches};

use crate::next::{Next, next_at};
use ds_base::{MemberId, NoMemory};
use ds_model::RecordList;
use log_record::{Log, reading_laws};
use std::alloc::Global;

/// How far a log is whole records whose numbers never fall.
#[derive(Drop)]
pub enum Reach {
    /// Up to its end, or to a tail that is no whole record.
    Tail(Log),
    /// Up to this byte: behind it stands neither a record that may follow nor one that was cut short.
    Broken { at: u64 },
}

/// Reads the records of the member's log, up to the first byte that isn't of a whole record or where a number falls.
pub fn read_records(alloc: Global, member: MemberId, bytes: &[u8]) -> Result<Reach, NoMemory>
    ensures { IfOk result (λ reach. Reaches member bytes.now reach) }
{
    let mut records = RecordList::new(alloc);
    let mut at = 0;
    let mut low = 0;
    loop {
        match next_at(alloc, bytes, at, low)? {
            Next::Whole(found, length) => {
                low = found.lrsn.number();
                records.push(found)?;
                at += length;
            }
            Next::Tail => {
                return Ok(Reach::Tail(Log {
                    member,
                    records,
                    length: at as u64,
                    tail: (bytes.len() - at) as u64,
                }));
            }
            Next::Broken => return Ok(Reach::Broken { at: at as u64 }),
        }
    }
}

/// A log that was read up to a tail is whole where the tail may be left by a stop inside an append, and else it breaks off
/// there. The function does nothing: it is called where its facts are needed.
pub fn tail_laws()
    ensures torn { (member : ℕ) (bytes : List ℕ) (log : Log) → IsRead member bytes log → IsTorn (drop log.length bytes) → IsWholeLog member bytes log }
    ensures broken { (member : ℕ) (bytes : List ℕ) (log : Log) → IsRead member bytes log → (IsTorn (drop log.length bytes) → ⊥) → BreaksOff bytes log.length }
{
    reading_laws();
}
