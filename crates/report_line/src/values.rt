//! Words by what they would say, and whether that may stand.

ghost use Rattle.std.specs.Prelude.{◌≡◌, ◌^◌, ◌<◌, ◌≤◌, ◌&&◌, IfOk, drop};
ghost use Rattle.std.specs.List.{list_all};
ghost use Rattle.report_line.specs.Lines as spec;
ghost use Rattle.report_line.specs.Reading as said;

use crate::words::{behind_first, word};
use ds_base::{Bytes, Key, Lrsn, MemberId, NoMemory, TableId, Value};
use number_text::{number_of, wide_number_of};
use std::alloc::Global;

// The most bytes of a name.
const NAME_LIMIT: usize = 16;

/// The number that a word spells, and 0 where it spells none.
#[tactic(auto, unfolding(crate::specs::Reading::number))]
pub fn number(word: &[u8]) -> u64
    ensures { result ≡ said.number word.now }
{
    number_of(word).unwrap_or(0)
}

#[tactic(auto, unfolding(crate::specs::Reading::wide_number))]
fn wide_number(word: &[u8]) -> u128
    ensures { result ≡ said.wide_number word.now }
{
    wide_number_of(word).unwrap_or(0)
}

pub fn number_at(line: &[u8], at: usize) -> u64
    ensures { result ≡ said.number_at line.now at }
{
    number(word(line, at))
}

pub fn table_at(line: &[u8], at: usize) -> Option<TableId>
    ensures { result ≡ said.kept (spec.is_table (said.number_at line.now at)) (said.number_at line.now at) }
{
    TableId::new(number_at(line, at))
}

/// The member behind the letter of a word.
pub fn member_at(line: &[u8], at: usize) -> Option<MemberId>
    ensures { result ≡ said.kept (spec.is_member (said.member_at line.now at)) (said.member_at line.now at) }
{
    MemberId::new(number(behind_first(word(line, at))))
}

pub fn lrsn_at(line: &[u8], at: usize) -> Option<Lrsn>
    ensures { result ≡ said.kept (spec.has_bits 80 (said.wide_number_at line.now at)) (said.wide_number_at line.now at) }
{
    Lrsn::new(wide_number(word(line, at)))
}

pub fn byte_at(line: &[u8], at: usize) -> Option<u8>
    ensures { result ≡ said.kept (spec.has_bits 8 (said.number_at line.now at)) (said.number_at line.now at) }
{
    let number = number_at(line, at);
    if number <= u64::from(u8::MAX) {
        Some(number as u8)
    } else {
        None
    }
}

/// A number of at most 16 bits.
pub fn short_at(line: &[u8], at: usize) -> Option<u16>
    ensures { result ≡ said.kept (spec.has_bits 16 (said.number_at line.now at)) (said.number_at line.now at) }
{
    let number = number_at(line, at);
    if number <= u64::from(u16::MAX) {
        Some(number as u16)
    } else {
        None
    }
}

/// A number of at most 32 bits.
pub fn count_at(line: &[u8], at: usize) -> Option<u32>
    ensures { result ≡ said.kept (spec.has_bits 32 (said.number_at line.now at)) (said.number_at line.now at) }
{
    let number = number_at(line, at);
    if number <= u64::from(u32::MAX) {
        Some(number as u32)
    } else {
        None
    }
}

fn is_name_byte(byte: u8) -> bool
    ensures { result ≡ spec.is_name_byte byte }
{
    matches!(byte, b'0'..=b'9' | b'A'..=b'Z' | b'a'..=b'z' | b'-' | b'_')
}

fn has_name_bytes(word: &[u8]) -> bool
    ensures { result ≡ list_all spec.is_name_byte word.now }
{
    word.iter().all(|byte| is_name_byte(*byte))
}

/// Whether a word is a name of a transaction.
#[tactic(auto, unfolding(crate::specs::Lines::is_name))]
pub fn is_name(word: &[u8]) -> bool
    ensures { result ≡ spec.is_name word.now }
{
    1 <= word.len() && word.len() <= NAME_LIMIT && has_name_bytes(word)
}

/// The name at a place of the line.
pub fn name_at(alloc: Global, line: &[u8], at: usize) -> Result<Option<Bytes>, NoMemory>
    ensures { IfOk result (λ found. found ≡ said.kept (spec.is_name (said.word line.now at)) (said.word line.now at)) }
{
    let name = word(line, at);
    if is_name(name) {
        Ok(Some(Bytes::from_vec(name.to_vec(alloc)?)))
    } else {
        Ok(None)
    }
}

/// The value behind the sign of a word.
#[tactic(auto, using(crate::proofs::Tests::value_kept))]
pub fn value_at(alloc: Global, line: &[u8], at: usize) -> Result<Option<Value>, NoMemory>
    ensures { IfOk result (λ found. found ≡ said.kept (spec.is_value (said.value_at line.now at)) (said.value_at line.now at)) }
{
    Value::new(alloc, behind_first(word(line, at)))
}

/// What a `get` has found: `-` for nothing, or a value. The outer `None` is for a word that says neither.
pub fn told_value_at(
    alloc: Global,
    line: &[u8],
    at: usize,
) -> Result<Option<Option<Value>>, NoMemory>
    ensures { IfOk result (λ found. found ≡ said.kept (spec.is_told_value (said.told_value_at line.now at)) (said.told_value_at line.now at)) }
{
    if word(line, at) == b"-".as_slice() {
        return Ok(Some(None));
    }
    match value_at(alloc, line, at)? {
        Some(value) => Ok(Some(Some(value))),
        None => Ok(None),
    }
}
