//! The call as a whole.

ghost use Rattle.std.specs.Prelude.{◌≡◌, ℕ, List, IfOk};
ghost use Rattle.ds_base.specs.declared.names.Sizes.{Sizes as AnySizes};
ghost use Rattle.group_words.specs.Orders.{AreSizes};
ghost use Rattle.picture_call.specs.declared.order.Order.TheVariants as orders;
ghost use Rattle.picture_call.specs.Calls.{IsCaused, IsNamed, IsWritable, Meets, Reads, Tells};
ghost use Rattle.picture_call.specs.Orders.{name_in, texts};
ghost use Rattle.picture_call.specs.declared.status.Status.{Status as AnyStatus};
ghost use Rattle.picture_call.specs.declared.status.Status.TheVariants as status;

use crate::answer::{Telling, answer, short_telling};
use crate::order::Order;
use crate::status::Status;
use crate::words::read_words;
use ds_base::{Bytes, NoMemory, Sink, Source};
use std::alloc::Global;
use whole_streams::{ReadError, read_all, write_all};

/// The bytes of the longest report that is read.
const REPORT_LIMIT: usize = 1_073_741_824;

// The name behind `why`.
fn name_in(words: &[String]) -> &[u8]
    ensures { result.now ≡ name_in (texts words.now) }
{
    match words {
        [_, name, ..] => name.as_bytes(),
        _ => b"",
    }
}

fn tell_source<S: Source>(
    alloc: Global,
    order: Order,
    name: &[u8],
    source: &mut S,
) -> Result<Telling, NoMemory>
    requires { (s : AnySizes) → order ≡ orders.Why s → AreSizes s }
    ensures named { IfOk result (λ t. IsNamed t.status t.text) }
    ensures writable { IfOk result (λ t. IsWritable t.status) }
    ensures read { IfOk result (λ t. (t.status ≡ status.SourceFailed → ⊥) → Reads order name.now (S.left source.old) (S.left source.new) t.status t.text) }
    ensures caused { IfOk result (λ t. IsCaused t.status (S.faults source.old) (S.faults source.new)) }
{
    match read_all(alloc, source, REPORT_LIMIT) {
        Err(ReadError::NoMemory) => Err(NoMemory),
        Err(ReadError::Failed) => short_telling(alloc, Status::SourceFailed),
        Ok(bytes) => answer(alloc, order, name, &bytes),
    }
}

fn tell<S: Source>(alloc: Global, words: &[String], source: &mut S) -> Result<Telling, NoMemory>
    ensures named { IfOk result (λ t. IsNamed t.status t.text) }
    ensures writable { IfOk result (λ t. IsWritable t.status) }
    ensures meets { IfOk result (λ t. Meets (texts words.now) (S.left source.old) (S.left source.new) t.status t.text) }
    ensures caused { IfOk result (λ t. IsCaused t.status (S.faults source.old) (S.faults source.new)) }
{
    match read_words(alloc, words)? {
        None => short_telling(alloc, Status::WordsRefused),
        Some(order) => tell_source(alloc, order, name_in(words), source),
    }
}

// What is told, also where memory is wanting.
fn tell_all<S: Source>(alloc: Global, words: &[String], source: &mut S) -> Telling
    ensures named { IsNamed result.status result.text }
    ensures writable { IsWritable result.status }
    ensures meets { (result.status ≡ status.NoMemory → ⊥) → Meets (texts words.now) (S.left source.old) (S.left source.new) result.status result.text }
    ensures caused { IsCaused result.status (S.faults source.old) (S.faults source.new) }
{
    match tell(alloc, words, source) {
        Ok(telling) => telling,
        Err(NoMemory) => Telling {
            status: Status::NoMemory,
            text: Bytes::new(alloc),
        },
    }
}

// Writes what is told, and answers the status that stands in the end.
fn write_telling<K: Sink>(sink: &mut K, telling: &Telling) -> Status
    requires { IsWritable telling.now.status }
    ensures { Tells telling.now.status result telling.now.text (K.taken sink.old) (K.taken sink.new) (K.faults sink.old) (K.faults sink.new) }
{
    match write_all(sink, telling.text.as_slice()) {
        Ok(()) => telling.status,
        Err(_) => Status::SinkFailed,
    }
}

/// Reads a report with its trace, for a story also a script before it, writes what the words order, and answers how that ended. Nothing is written before all is computed.
pub fn call<S: Source, K: Sink>(
    alloc: Global,
    words: &[String],
    source: &mut S,
    sink: &mut K,
) -> Status
    ensures { (met : AnyStatus) × (text : List ℕ) × IsNamed met text
        × ((met ≡ status.NoMemory → ⊥) → Meets (texts words.now) (S.left source.old) (S.left source.new) met text) × IsCaused met (S.faults source.old) (S.faults source.new)
        × Tells met result text (K.taken sink.old) (K.taken sink.new) (K.faults sink.old) (K.faults sink.new) }
{
    let telling = tell_all(alloc, words, source);
    write_telling(sink, &telling)
}
