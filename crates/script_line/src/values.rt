//! Words by what they may be, each with the fault of a word that isn't one.

ghost use Rattle.std.specs.Prelude.{◌≡◌, ◌≤◌, ◌^◌, ◌<◌};
ghost use Rattle.std.specs.List.{list_all};
ghost use Rattle.script_line.specs.Words as words;
ghost use Rattle.script_line.specs.Lines as spec;

use ds_base::{Key, MemberId, TableId, Value};
use ds_model::FaultKind;
use number_text::number_of;
use std::alloc::Global;

// The most bytes of a name.
const NAME_LIMIT: usize = 16;

// The greatest flag.
const FLAG_LIMIT: u64 = 64;

/// The number that a word spells, from the least to the greatest.
pub fn number_in(word: &[u8], least: u64, greatest: u64) -> Result<u64, FaultKind>
    ensures { result ≡ words.number_in least greatest word.now }
{
    match number_of(word) {
        Some(number) if least <= number && number <= greatest => Ok(number),
        _ => Err(FaultKind::Number),
    }
}

/// One of so many members.
pub fn member_in(word: &[u8], members: u8) -> Result<MemberId, FaultKind>
    requires { members ≤ 32 }
    ensures { result ≡ words.member_in members word.now }
{
    match number_of(word) {
        Some(number) if number <= u64::from(members) => {
            MemberId::new(number).ok_or(FaultKind::Member)
        }
        _ => Err(FaultKind::Member),
    }
}

/// How often something happens, from 1.
pub fn count_in(word: &[u8]) -> Result<u32, FaultKind>
    ensures { result ≡ spec.count_in word.now }
{
    let count = number_in(word, 1, u64::from(u32::MAX))?;
    Ok(count as u32)
}

/// A flag of a phase.
pub fn flag_in(word: &[u8]) -> Result<u8, FaultKind>
    ensures { result ≡ spec.flag_in word.now }
{
    let flag = number_in(word, 1, FLAG_LIMIT)?;
    Ok(flag as u8)
}

pub fn table_in(word: &[u8]) -> Result<TableId, FaultKind>
    ensures { result ≡ spec.table_in word.now }
{
    match number_of(word) {
        Some(number) => TableId::new(number).ok_or(FaultKind::Number),
        None => Err(FaultKind::Number),
    }
}

pub fn key_in(word: &[u8]) -> Result<Key, FaultKind>
    ensures { result ≡ spec.key_in word.now }
{
    number_in(word, 0, u64::MAX)
}

fn is_name_byte(byte: u8) -> bool
    ensures { result ≡ words.is_name_byte byte }
{
    matches!(byte, b'0'..=b'9' | b'A'..=b'Z' | b'a'..=b'z' | b'-' | b'_')
}

fn are_name_bytes(word: &[u8]) -> bool
    ensures { result ≡ list_all words.is_name_byte word.now }
{
    word.iter().all(|b| is_name_byte(*b))
}

/// Whether the bytes are a name of a transaction.
pub fn is_name(word: &[u8]) -> bool
    ensures { result ≡ words.is_name word.now }
{
    1 <= word.len() && word.len() <= NAME_LIMIT && are_name_bytes(word)
}

fn value_of(alloc: Global, bytes: &[u8]) -> Result<Value, FaultKind>
    ensures { result ≡ words.value_of bytes.now }
{
    match Value::new(alloc, bytes) {
        Ok(found) => found.ok_or(FaultKind::Value),
        Err(_) => unreachable!(),
    }
}

/// The value behind `=`.
pub fn value_in(alloc: Global, word: &[u8]) -> Result<Value, FaultKind>
    ensures { result ≡ words.value_in word.now }
{
    match word {
        [b'=', bytes @ ..] => value_of(alloc, bytes),
        _ => Err(FaultKind::Value),
    }
}
