//! The words of a line.

ghost use Rattle.std.specs.Prelude.{◌≡◌, ◌≢◌, ◌<◌, ◌≤◌, [], ◌∷◌, length, MatchOption};
ghost use Rattle.std.specs.List.{prefix_len};
ghost use Rattle.script_line.specs.Lines as spec;
ghost use Rattle.script_line.specs.Words.{is_blank, is_solid, words_of};

// How many blanks a line begins with.
fn blanks_before(line: &[u8]) -> usize
    ensures count { result ≡ prefix_len is_blank line.now }
    ensures bound { result ≤ length line.now }
{
    line.iter().take_while(|b| **b == b' ').count()
}

// How many bytes stand before the first blank.
fn word_length(line: &[u8]) -> usize
    ensures count { result ≡ prefix_len is_solid line.now }
    ensures bound { result ≤ length line.now }
{
    line.iter().take_while(|b| **b != b' ').count()
}

/// The first word of a line, and what stands behind it.
#[tactic(auto, using(crate::proofs::FirstWords::no_words, crate::proofs::FirstWords::first_word))]
pub fn next_word(line: &[u8]) -> Option<(&[u8], &[u8])>
    ensures { MatchOption result (words_of line.now ≡ []) (λ found. (words_of line.now ≡ found.0.now ∷ words_of found.1.now) × (0 < length found.0.now)) }
{
    let (_, line) = line.split_at(blanks_before(line));
    match word_length(line) {
        0 => None,
        length => Some(line.split_at(length)),
    }
}

/// The word of a line that has one.
pub fn one_word(line: &[u8]) -> Option<&[u8]>
    ensures { MatchOption result (length (words_of line.now) ≢ 1) (λ word. words_of line.now ≡ word.now ∷ []) }
{
    match next_word(line) {
        Some((word, rest)) if next_word(rest).is_none() => Some(word),
        _ => None,
    }
}

/// The words of a line that has two.
pub fn two_words(line: &[u8]) -> Option<(&[u8], &[u8])>
    ensures { MatchOption result (length (words_of line.now) ≢ 2) (λ found. words_of line.now ≡ found.0.now ∷ found.1.now ∷ []) }
{
    let (first, rest) = next_word(line)?;
    let second = one_word(rest)?;
    Some((first, second))
}

/// The words of a line that has three.
pub fn three_words(line: &[u8]) -> Option<(&[u8], &[u8], &[u8])>
    ensures { MatchOption result (length (words_of line.now) ≢ 3) (λ found. words_of line.now ≡ found.0.now ∷ found.1.now ∷ found.2.now ∷ []) }
{
    let (first, rest) = next_word(line)?;
    let (second, third) = two_words(rest)?;
    Some((first, second, third))
}

/// Whether a line is passed over: it has no words, or its first word begins with `#`.
///
/// The line comes without its line feed and the carriage return before it.
pub fn is_skipped(line: &[u8]) -> bool
    ensures { result ≡ spec.is_skipped line.now }
{
    match next_word(line) {
        Some((word, _)) => word[0] == b'#',
        None => true,
    }
}
