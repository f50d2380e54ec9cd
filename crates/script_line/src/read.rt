//! What a line says.

ghost use Rattle.std.specs.Prelude.{◌≡◌, ◌≤◌};
ghost use Rattle.script_line.specs.Lines as spec;
ghost use Rattle.script_line.specs.Words as words;
ghost use Rattle.script_line.specs.Words.{words_of};

use crate::keyword::keyword_of;
use crate::line::{Keyword, Line, LineError};
use crate::operation::op_line;
use crate::values::{count_in, flag_in, is_name, member_in};
use crate::words::{next_word, one_word, two_words};
use ds_base::Bytes;
use ds_model::{FailAt, FaultKind};
use std::alloc::Global;

fn bare(line: Line, rest: &[u8]) -> Result<Line, FaultKind>
    ensures { result ≡ spec.bare line (words_of rest.now) }
{
    match next_word(rest) {
        Some(_) => Err(FaultKind::Word),
        None => Ok(line),
    }
}

fn member_line(rest: &[u8], members: u8) -> Result<Line, FaultKind>
    requires { members ≤ 32 }
    ensures { result ≡ spec.member_line members (words_of rest.now) }
{
    let Some(word) = one_word(rest) else {
        return Err(FaultKind::Word);
    };
    let member = member_in(word, members)?;
    Ok(Line::Member(member))
}

fn fail_at_in(kind: &[u8], word: &[u8]) -> Result<FailAt, FaultKind>
    ensures { result ≡ spec.fail_at_in kind.now word.now }
{
    if kind == b"command".as_slice() {
        Ok(FailAt::Command(count_in(word)?))
    } else if kind == b"commit".as_slice() {
        Ok(FailAt::Commit(count_in(word)?))
    } else if kind == b"committed".as_slice() {
        Ok(FailAt::Committed(count_in(word)?))
    } else if kind == b"raise".as_slice() {
        Ok(FailAt::Raise(flag_in(word)?))
    } else {
        Err(FaultKind::Word)
    }
}

fn fail_line(rest: &[u8]) -> Result<Line, FaultKind>
    ensures { result ≡ spec.fail_line (words_of rest.now) }
{
    let Some((kind, word)) = two_words(rest) else {
        return Err(FaultKind::Word);
    };
    let fail = fail_at_in(kind, word)?;
    Ok(Line::Fail(fail))
}

fn tran_as(alloc: Global, wait: bool, word: &[u8]) -> Result<Line, LineError>
    ensures { spec.Gives (spec.tran_as wait word.now) result }
{
    if !is_name(word) {
        return Err(LineError::Fault(FaultKind::Name));
    }
    let mut name = Bytes::new(alloc);
    name.extend(word)?;
    Ok(Line::Tran { name, wait })
}

fn tran_line(alloc: Global, rest: &[u8]) -> Result<Line, LineError>
    ensures { spec.Gives (spec.tran_line (words_of rest.now)) result }
{
    if let Some(word) = one_word(rest) {
        return tran_as(alloc, true, word);
    }
    match two_words(rest) {
        Some((word, last)) if last == b"nowait".as_slice() => tran_as(alloc, false, word),
        _ => Err(LineError::Fault(FaultKind::Word)),
    }
}

// What a line of this kind says, with this first word and this behind it.
fn line_under(
    alloc: Global,
    keyword: Keyword,
    first: &[u8],
    rest: &[u8],
    members: u8,
) -> Result<Line, LineError>
    requires { members ≤ 32 }
    ensures { spec.Gives (spec.line_under members keyword first.now (words_of rest.now)) result }
{
    match keyword {
        Keyword::GroupFail => Ok(bare(Line::GroupFail, rest)?),
        Keyword::Phase => Ok(bare(Line::Phase, rest)?),
        Keyword::Member => Ok(member_line(rest, members)?),
        Keyword::Restart => Ok(bare(Line::Restart, rest)?),
        Keyword::Fail => Ok(fail_line(rest)?),
        Keyword::Tran => tran_line(alloc, rest),
        Keyword::Operation => Ok(Line::Operation(op_line(alloc, first, rest)?)),
        Keyword::End => Ok(bare(Line::End, rest)?),
    }
}

// What a line with this first word and this behind it says.
fn line_behind(alloc: Global, first: &[u8], rest: &[u8], members: u8) -> Result<Line, LineError>
    requires { members ≤ 32 }
    ensures { spec.Gives (spec.line_behind members (spec.keyword_of first.now) first.now (words_of rest.now)) result }
{
    match keyword_of(first) {
        Some(keyword) => line_under(alloc, keyword, first, rest, members),
        None => Err(LineError::Fault(FaultKind::Word)),
    }
}

fn is_ascii(line: &[u8]) -> bool
    ensures { result ≡ words.is_ascii line.now }
{
    line.iter().all(|b| *b < 128)
}

/// What a line that isn't skipped says by itself, for a group with so many members, or the first of its faults.
///
/// The line comes without its line feed and the carriage return before it. Only the name of a transaction takes memory.
pub fn line_in(alloc: Global, line: &[u8], members: u8) -> Result<Line, LineError>
    requires { (1 ≤ members) × (members ≤ 32) }
    ensures { spec.Gives (spec.line_in members line.now) result }
{
    if !is_ascii(line) {
        return Err(LineError::Fault(FaultKind::Word));
    }
    match next_word(line) {
        Some((first, rest)) => line_behind(alloc, first, rest, members),
        None => Err(LineError::Fault(FaultKind::Word)),
    }
}
