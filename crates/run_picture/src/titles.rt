//! What is said of a shape where one points at it.

ghost use Rattle.std.specs.Prelude.{◌≡◌, ◌++◌, OnOk, IfOk};
ghost use Rattle.ds_model.specs.ReportText.{event_text};
ghost use Rattle.run_picture.specs.Titles as spec;

use ds_base::{Bytes, NoMemory};
use ds_model::{EventLine, ReportEntry, Told};
use report_line::{put_committed, put_event, put_refused, put_stopped};
use std::alloc::Global;

/// Adds a text and the digits of a number.
#[tactic(auto, unfolding(crate::specs::Titles::counted))]
pub fn put_number(alloc: Global, out: &mut Bytes, text: &[u8], number: u64) -> Result<(), NoMemory>
    ensures { OnOk result (out.new ≡ out.old ++ spec.counted text.now number) }
{
    out.extend(text)?;
    out.extend_number(alloc, number)
}

/// A text by itself.
pub fn text_of(alloc: Global, text: &[u8]) -> Result<Bytes, NoMemory>
    ensures { IfOk result (λ out. out ≡ text.now) }
{
    let mut out = Bytes::new(alloc);
    out.extend(text)?;
    Ok(out)
}

/// A text with a number behind it.
pub fn counted(alloc: Global, text: &[u8], number: u64) -> Result<Bytes, NoMemory>
    ensures { IfOk result (λ out. out ≡ spec.counted text.now number) }
{
    let mut out = Bytes::new(alloc);
    put_number(alloc, &mut out, text, number)?;
    Ok(out)
}

/// Two numbers, each behind a text.
#[tactic(auto, unfolding(crate::specs::Titles::counted_twice))]
pub fn counted_twice(
    alloc: Global,
    text: &[u8],
    number: u64,
    next: &[u8],
    other: u64,
) -> Result<Bytes, NoMemory>
    ensures { IfOk result (λ out. out ≡ spec.counted_twice text.now number next.now other) }
{
    let mut out = counted(alloc, text, number)?;
    put_number(alloc, &mut out, next, other)?;
    Ok(out)
}

/// Adds the report's line of a transaction, without its reads.
#[tactic(auto, unfolding(crate::specs::Titles::fate_text))]
pub fn put_fate(alloc: Global, out: &mut Bytes, entry: &ReportEntry) -> Result<(), NoMemory>
    ensures { OnOk result (out.new ≡ out.old ++ spec.fate_text entry.now) }
{
    match &entry.told {
        Told::Committed { answered, .. } => {
            put_committed(alloc, out, &entry.name, entry.member, *answered)
        }
        Told::Refused(refusal) => put_refused(alloc, out, &entry.name, entry.member, refusal),
        Told::Stopped => put_stopped(alloc, out, &entry.name, entry.member),
    }
}

/// The report's line of a transaction, and its first and last event.
#[tactic(auto, unfolding(crate::specs::Titles::bar_title))]
pub fn bar_title(
    alloc: Global,
    entry: &ReportEntry,
    first: u64,
    last: u64,
) -> Result<Bytes, NoMemory>
    ensures { IfOk result (λ out. out ≡ spec.bar_title entry.now first last) }
{
    let mut out = Bytes::new(alloc);
    put_fate(alloc, &mut out, entry)?;
    put_number(alloc, &mut out, b"events ", first)?;
    put_number(alloc, &mut out, b" to ", last)?;
    Ok(out)
}

/// The line of an event.
pub fn event_title(alloc: Global, event: &EventLine) -> Result<Bytes, NoMemory>
    ensures { IfOk result (λ out. out ≡ event_text event.now) }
{
    let mut out = Bytes::new(alloc);
    put_event(alloc, &mut out, event)?;
    Ok(out)
}
