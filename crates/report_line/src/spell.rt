//! The spelling of lines.

ghost use Rattle.std.specs.Prelude.{◌≡◌, ◌++◌, OnOk, codes, decimal};
ghost use Rattle.ds_model.specs.ScriptText.{spot_text};
ghost use Rattle.ds_model.specs.ReportText.{value_text, get_text, row_text, who_text, cause_text, event_text};
ghost use Rattle.ds_model.specs.declared.report.Told.TheVariants as told;
ghost use Rattle.report_line.specs.declared.line.ReportLine.TheVariants as lines;
ghost use Rattle.report_line.specs.Lines.{line_text};

use crate::line::ReportLine;
use crate::refusal::put_refusal;
use ds_base::{Bytes, Key, MemberId, NoMemory, Row, TableId, Value};
use ds_model::{CauseLine, EventLine, ToldRefusal};
use std::alloc::Global;

/// Adds a text and the digits of a number.
pub fn put_number(alloc: Global, out: &mut Bytes, text: &[u8], number: u64) -> Result<(), NoMemory>
    ensures { OnOk result (out.new ≡ out.old ++ (text.now ++ decimal number)) }
{
    out.extend(text)?;
    out.extend_number(alloc, number)
}

/// Adds a text and the digits of a log record's number (LRSN).
pub fn put_lrsn(alloc: Global, out: &mut Bytes, text: &[u8], number: u128) -> Result<(), NoMemory>
    ensures { OnOk result (out.new ≡ out.old ++ (text.now ++ decimal number)) }
{
    out.extend(text)?;
    out.extend_wide_number(alloc, number)
}

/// Adds a text and the digits of two numbers, with a blank between them.
pub fn put_numbers(
    alloc: Global,
    out: &mut Bytes,
    text: &[u8],
    first: u64,
    second: u64,
) -> Result<(), NoMemory>
    ensures { OnOk result (out.new ≡ out.old ++ (text.now ++ decimal first ++ codes " " ++ decimal second)) }
{
    put_number(alloc, out, text, first)?;
    put_number(alloc, out, b" ", second)
}

/// Adds a word, a table and a key.
pub fn put_spot(
    alloc: Global,
    out: &mut Bytes,
    word: &[u8],
    table: TableId,
    key: Key,
) -> Result<(), NoMemory>
    ensures { OnOk result (out.new ≡ out.old ++ spot_text word.now table key) }
{
    out.extend(word)?;
    put_numbers(alloc, out, b" ", table.number(), key)
}

fn put_value(out: &mut Bytes, value: &Option<Value>) -> Result<(), NoMemory>
    ensures { OnOk result (out.new ≡ out.old ++ value_text value.now) }
{
    match value {
        None => out.extend(b" -"),
        Some(value) => {
            out.extend(b" =")?;
            out.extend(value.bytes())
        }
    }
}

/// Adds the line of what a `get` read, or of a row of a scan.
pub fn put_get(
    alloc: Global,
    out: &mut Bytes,
    table: TableId,
    key: Key,
    value: &Option<Value>,
) -> Result<(), NoMemory>
    ensures { OnOk result (out.new ≡ out.old ++ get_text table key value.now) }
{
    put_spot(alloc, out, b"read", table, key)?;
    put_value(out, value)?;
    out.extend(b"\n")
}

/// Adds the line of a scan, with the count of its rows.
pub fn put_scan(
    alloc: Global,
    out: &mut Bytes,
    table: TableId,
    low: Key,
    high: Key,
    count: u64,
) -> Result<(), NoMemory>
    ensures { OnOk result (out.new ≡ out.old ++ line_text (lines.Scan table low high count)) }
{
    put_spot(alloc, out, b"scan", table, low)?;
    put_number(alloc, out, b" ", high)?;
    put_number(alloc, out, b" ", count)?;
    out.extend(b"\n")
}

/// Adds the line of a row.
pub fn put_row(alloc: Global, out: &mut Bytes, row: &Row) -> Result<(), NoMemory>
    ensures { OnOk result (out.new ≡ out.old ++ row_text row.now) }
{
    put_spot(alloc, out, b"row", row.table, row.key)?;
    put_value(out, &Some(row.value))?;
    out.extend(b"\n")
}

fn put_who(alloc: Global, out: &mut Bytes, name: &Bytes, member: MemberId) -> Result<(), NoMemory>
    ensures { OnOk result (out.new ≡ out.old ++ who_text name.now member) }
{
    out.extend(name.as_slice())?;
    put_number(alloc, out, b" M", member.number())
}

/// Adds the line of a transaction that committed.
pub fn put_committed(
    alloc: Global,
    out: &mut Bytes,
    name: &Bytes,
    member: MemberId,
    answered: bool,
) -> Result<(), NoMemory>
    ensures { OnOk result (out.new ≡ out.old ++ line_text (lines.Committed name.now member answered)) }
{
    out.extend(b"committed ")?;
    put_who(alloc, out, name, member)?;
    if answered {
        out.extend(b" answered\n")
    } else {
        out.extend(b" unanswered\n")
    }
}

/// Adds the line of a transaction that was refused.
pub fn put_refused(
    alloc: Global,
    out: &mut Bytes,
    name: &Bytes,
    member: MemberId,
    refusal: &ToldRefusal,
) -> Result<(), NoMemory>
    ensures { OnOk result (out.new ≡ out.old ++ line_text (lines.Refused name.now member refusal.now)) }
{
    out.extend(b"refused ")?;
    put_who(alloc, out, name, member)?;
    out.extend(b" ")?;
    put_refusal(alloc, out, refusal)?;
    out.extend(b"\n")
}

/// Adds the line of a transaction that its member's failure stopped.
pub fn put_stopped(
    alloc: Global,
    out: &mut Bytes,
    name: &Bytes,
    member: MemberId,
) -> Result<(), NoMemory>
    ensures { OnOk result (out.new ≡ out.old ++ line_text (lines.Stopped name.now member)) }
{
    out.extend(b"stopped ")?;
    put_who(alloc, out, name, member)?;
    out.extend(b"\n")
}

/// Adds the line of a refusal's cause.
pub fn put_cause(alloc: Global, out: &mut Bytes, cause: &CauseLine) -> Result<(), NoMemory>
    ensures { OnOk result (out.new ≡ out.old ++ cause_text cause.now) }
{
    out.extend(b"cause ")?;
    out.extend(cause.name.as_slice())?;
    put_number(alloc, out, b" ", cause.place)?;
    out.extend(b"\n")
}

/// Adds the line of an event.
pub fn put_event(alloc: Global, out: &mut Bytes, event: &EventLine) -> Result<(), NoMemory>
    ensures { OnOk result (out.new ≡ out.old ++ event_text event.now) }
{
    put_numbers(alloc, out, b"event ", event.place, event.member as u64)?;
    put_number(alloc, out, b" ", event.choice)?;
    out.extend(b" ")?;
    out.extend(event.command.as_slice())?;
    out.extend(b" ")?;
    out.extend(event.reply.as_slice())?;
    out.extend(b"\n")
}

/// Adds a line of a word and a number.
pub fn put_count(alloc: Global, out: &mut Bytes, text: &[u8], number: u64) -> Result<(), NoMemory>
    ensures { OnOk result (out.new ≡ out.old ++ (text.now ++ decimal number ++ codes "\n")) }
{
    put_number(alloc, out, text, number)?;
    out.extend(b"\n")
}

/// Adds a line of a report.
pub fn put_line(alloc: Global, out: &mut Bytes, line: &ReportLine) -> Result<(), NoMemory>
    ensures { OnOk result (out.new ≡ out.old ++ line_text line.now) }
{
    match line {
        ReportLine::Opening => out.extend(b"dsgroup 1\n"),
        ReportLine::Committed {
            name,
            member,
            answered,
        } => put_committed(alloc, out, name, *member, *answered),
        ReportLine::Refused {
            name,
            member,
            refusal,
        } => put_refused(alloc, out, name, *member, refusal),
        ReportLine::Stopped { name, member } => put_stopped(alloc, out, name, *member),
        ReportLine::Read { table, key, value } => put_get(alloc, out, *table, *key, value),
        ReportLine::Scan {
            table,
            low,
            high,
            count,
        } => put_scan(alloc, out, *table, *low, *high, *count),
        ReportLine::Cause(cause) => put_cause(alloc, out, cause),
        ReportLine::Event(event) => put_event(alloc, out, event),
        ReportLine::Rows { count } => put_count(alloc, out, b"rows ", *count),
        ReportLine::Row(row) => put_row(alloc, out, row),
        ReportLine::End { status } => put_count(alloc, out, b"end ", *status as u64),
    }
}
