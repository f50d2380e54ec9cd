//! The words of a line, which blanks part.

ghost use Rattle.std.specs.Prelude.{◌≡◌, ◌==◌, ◌<◌, ℕ, List, [], ◌∷◌, drop, length, IfNone, IfOk, IfSome};
ghost use Rattle.std.specs.List.{list_any, slice_split, position};
ghost use Rattle.std.specs.Str.{bytes_eq};
ghost use Rattle.report_line.specs.Cuts.{parts_left};
ghost use Rattle.report_line.specs.Reading as said;

use ds_base::{Bytes, NoMemory, Sequence};
use ds_model::NameList;
use std::alloc::Global;

// Where the separator stands first.
fn first_place(text: &[u8], separator: u8) -> Option<usize>
    ensures { result ≡ position (λ (b : ℕ). b == separator) text.now }
{
    text.iter().position(|b| *b == separator)
}

/// What stands before the first separator, and what stands behind it, if there is one.
#[tactic(auto, using(crate::proofs::Parts::split_found, crate::proofs::Parts::split_missing))]
pub fn cut(text: &[u8], separator: u8) -> (&[u8], Option<&[u8]>)
    ensures parts { slice_split (λ (b : ℕ). b == separator) text.now ≡ result.0.now ∷ parts_left separator result.1 }
    ensures whole { IfNone result.1 (result.0.now ≡ text.now) }
    ensures shorter { IfSome result.1 (λ rest. length rest.now < length text.now) }
{
    match first_place(text, separator) {
        Some(at) => (&text[..at], Some(&text[at + 1..])),
        None => (text, None),
    }
}

// What is left without its first word.
fn skip_word(rest: Option<&[u8]>) -> Option<&[u8]>
    ensures { parts_left 32 result ≡ drop 1 (parts_left 32 rest.entry) }
{
    match rest {
        Some(text) => cut(text, b' ').1,
        None => None,
    }
}

// The line from the word at a place on, or `None` where it has no more words than that.
#[tactic(auto, unfolding(crate::specs::Reading::words_of))]
fn rest_from(line: &[u8], at: usize) -> Option<&[u8]>
    ensures { parts_left 32 result ≡ drop at (said.words_of line.now) }
{
    let mut rest = Some(line);
    for _ in 0..at {
        rest = skip_word(rest);
    }
    rest
}

/// The word at a place of the line, from 0, or nothing where the line has fewer words.
#[tactic(auto, unfolding(crate::specs::Reading::word, crate::specs::Reading::words_of))]
pub fn word(line: &[u8], at: usize) -> &[u8]
    ensures { result.now ≡ said.word line.now at }
{
    match rest_from(line, at) {
        Some(rest) => cut(rest, b' ').0,
        None => b"",
    }
}

/// The words of a line from a place on.
#[tactic(auto, unfolding(crate::specs::Reading::words_of))]
pub fn words_from(alloc: Global, line: &[u8], at: usize) -> Result<NameList, NoMemory>
    ensures { IfOk result (λ found. found ≡ drop at (said.words_of line.now)) }
{
    let mut found = Sequence::new(alloc);
    let mut rest = rest_from(line, at);
    while let Some(text) = rest {
        let (word, after) = cut(text, b' ');
        found.push(Bytes::from_vec(word.to_vec(alloc)?))?;
        rest = after;
    }
    Ok(found)
}

/// Whether a word is one of those in a line.
#[tactic(auto, unfolding(crate::specs::Reading::words_of))]
pub fn has_word(words: &[u8], word: &[u8]) -> bool
    ensures { result ≡ list_any (bytes_eq word.now) (said.words_of words.now) }
{
    let mut rest = Some(words);
    while let Some(text) = rest {
        let (one, after) = cut(text, b' ');
        if word == one {
            return true;
        }
        rest = after;
    }
    false
}

/// A word without its first byte.
pub fn behind_first(word: &[u8]) -> &[u8]
    ensures { result.now ≡ drop 1 word.now }
{
    match word {
        [_, rest @ ..] => rest,
        [] => word,
    }
}
