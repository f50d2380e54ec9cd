//! A line of a report, read.

ghost use Rattle.std.specs.Prelude.{◌≡◌, ◌&&◌, IfOk};
ghost use Rattle.std.specs.Str.{bytes_eq};
ghost use Rattle.ds_model.specs.ScriptText.{line};
ghost use Rattle.report_line.specs.Lines as spec;
ghost use Rattle.report_line.specs.Reading as said;

use crate::line::ReportLine;
use crate::refusal::refusal_in;
use crate::spell::put_line;
use crate::trace_words::{is_command, is_reply};
use crate::values::{byte_at, member_at, name_at, number_at, table_at, told_value_at, value_at};
use crate::words::word;
use ds_base::{Bytes, MemberId, NoMemory, Row};
use ds_model::{CauseLine, EventLine};
use std::alloc::Global;

// The name of a transaction and its member.
fn who(alloc: Global, line: &[u8]) -> Result<Option<(Bytes, MemberId)>, NoMemory>
    ensures { IfOk result (λ found. found ≡ said.kept (spec.is_who (said.word line.now 1) (said.member_at line.now 2)) (said.word line.now 1, said.member_at line.now 2)) }
{
    let Some(member) = member_at(line, 2) else {
        return Ok(None);
    };
    match name_at(alloc, line, 1)? {
        Some(name) => Ok(Some((name, member))),
        None => Ok(None),
    }
}

fn committed(alloc: Global, line: &[u8]) -> Result<Option<ReportLine>, NoMemory>
    ensures { IfOk result (λ found. found ≡ said.allowed (said.committed_said line.now)) }
{
    let Some((name, member)) = who(alloc, line)? else {
        return Ok(None);
    };
    Ok(Some(ReportLine::Committed {
        name,
        member,
        answered: word(line, 3) == b"answered".as_slice(),
    }))
}

fn refused(alloc: Global, line: &[u8]) -> Result<Option<ReportLine>, NoMemory>
    ensures { IfOk result (λ found. found ≡ said.allowed (said.refused_said line.now)) }
{
    let Some((name, member)) = who(alloc, line)? else {
        return Ok(None);
    };
    match refusal_in(alloc, line)? {
        Some(refusal) => Ok(Some(ReportLine::Refused {
            name,
            member,
            refusal,
        })),
        None => Ok(None),
    }
}

fn stopped(alloc: Global, line: &[u8]) -> Result<Option<ReportLine>, NoMemory>
    ensures { IfOk result (λ found. found ≡ said.allowed (said.stopped_said line.now)) }
{
    match who(alloc, line)? {
        Some((name, member)) => Ok(Some(ReportLine::Stopped { name, member })),
        None => Ok(None),
    }
}

fn read(alloc: Global, line: &[u8]) -> Result<Option<ReportLine>, NoMemory>
    ensures { IfOk result (λ found. found ≡ said.allowed (said.read_said line.now)) }
{
    let Some(table) = table_at(line, 1) else {
        return Ok(None);
    };
    let key = number_at(line, 2);
    match told_value_at(alloc, line, 3)? {
        Some(value) => Ok(Some(ReportLine::Read { table, key, value })),
        None => Ok(None),
    }
}

fn scan(line: &[u8]) -> Option<ReportLine>
    ensures { result ≡ said.allowed (said.scan_said line.now) }
{
    Some(ReportLine::Scan {
        table: table_at(line, 1)?,
        low: number_at(line, 2),
        high: number_at(line, 3),
        count: number_at(line, 4),
    })
}

fn cause(alloc: Global, line: &[u8]) -> Result<Option<ReportLine>, NoMemory>
    ensures { IfOk result (λ found. found ≡ said.allowed (said.cause_said line.now)) }
{
    let place = number_at(line, 2);
    if place == 0 {
        return Ok(None);
    }
    match name_at(alloc, line, 1)? {
        Some(name) => Ok(Some(ReportLine::Cause(CauseLine { name, place }))),
        None => Ok(None),
    }
}

fn event(alloc: Global, line: &[u8]) -> Result<Option<ReportLine>, NoMemory>
    ensures { IfOk result (λ found. found ≡ said.allowed (said.event_said line.now)) }
{
    let member = number_at(line, 2);
    let command = word(line, 4);
    let reply = word(line, 5);
    if member > 32 || !is_command(command) || !is_reply(reply) {
        return Ok(None);
    }
    Ok(Some(ReportLine::Event(EventLine {
        place: number_at(line, 1),
        member: member as u8,
        choice: number_at(line, 3),
        command: Bytes::from_vec(command.to_vec(alloc)?),
        reply: Bytes::from_vec(reply.to_vec(alloc)?),
    })))
}

fn row(alloc: Global, line: &[u8]) -> Result<Option<ReportLine>, NoMemory>
    ensures { IfOk result (λ found. found ≡ said.allowed (said.row_said line.now)) }
{
    let Some(table) = table_at(line, 1) else {
        return Ok(None);
    };
    let key = number_at(line, 2);
    match value_at(alloc, line, 3)? {
        Some(value) => Ok(Some(ReportLine::Row(Row { table, key, value }))),
        None => Ok(None),
    }
}

fn end(line: &[u8]) -> Option<ReportLine>
    ensures { result ≡ said.allowed (said.end_said line.now) }
{
    Some(ReportLine::End {
        status: byte_at(line, 1)?,
    })
}

// The lines of the trace and those behind it.
fn later_line(alloc: Global, line: &[u8]) -> Result<Option<ReportLine>, NoMemory>
    ensures { IfOk result (λ found. found ≡ said.allowed (said.later_said line.now)) }
{
    let kind = word(line, 0);
    if kind == b"cause".as_slice() {
        cause(alloc, line)
    } else if kind == b"event".as_slice() {
        event(alloc, line)
    } else if kind == b"rows".as_slice() {
        Ok(Some(ReportLine::Rows {
            count: number_at(line, 1),
        }))
    } else if kind == b"row".as_slice() {
        row(alloc, line)
    } else if kind == b"end".as_slice() {
        Ok(end(line))
    } else {
        Ok(Some(ReportLine::Opening))
    }
}

// What the words of a line say, where that may stand.
#[tactic(auto, unfolding(crate::specs::Reading::line_said))]
fn allowed_line(alloc: Global, line: &[u8]) -> Result<Option<ReportLine>, NoMemory>
    ensures { IfOk result (λ found. found ≡ said.allowed (said.line_said line.now)) }
{
    let kind = word(line, 0);
    if kind == b"committed".as_slice() {
        committed(alloc, line)
    } else if kind == b"refused".as_slice() {
        refused(alloc, line)
    } else if kind == b"stopped".as_slice() {
        stopped(alloc, line)
    } else if kind == b"read".as_slice() {
        read(alloc, line)
    } else if kind == b"scan".as_slice() {
        Ok(scan(line))
    } else {
        later_line(alloc, line)
    }
}

// Whether a spelling is this line and its line feed.
#[tactic(auto, using(crate::proofs::Ends::whole_never))]
fn is_whole(spelling: &[u8], text: &[u8]) -> bool
    ensures { result ≡ bytes_eq spelling.now (line text.now) }
{
    match spelling.split_last() {
        Some((last, body)) => *last == b'\n' && body == text,
        None => false,
    }
}

/// What a line of a report says, or `None` where no report has such a line.
///
/// The line comes without its line feed.
#[tactic(auto, unfolding(crate::specs::Reading::line_in))]
pub fn read_line(alloc: Global, text: &[u8]) -> Result<Option<ReportLine>, NoMemory>
    ensures { IfOk result (λ found. found ≡ said.line_in text.now) }
{
    let Some(found) = allowed_line(alloc, text)? else {
        return Ok(None);
    };
    let mut spelling = Bytes::new(alloc);
    put_line(alloc, &mut spelling, &found)?;
    if is_whole(spelling.as_slice(), text) {
        Ok(Some(found))
    } else {
        Ok(None)
    }
}
