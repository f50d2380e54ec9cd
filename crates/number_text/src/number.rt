ghost use Rattle.std.specs.Prelude.{◌≡◌};
ghost use Rattle.number_text.specs.Numbers as spec;

// The most digits of a number, leading zeros among them.
const DIGITS_LIMIT: usize = 20;

/// The number that a word spells with 1 to 20 decimal digits.
#[tactic(auto, using(crate::proofs::Digits::read_too_great, crate::proofs::Digits::read_whole))]
pub fn number_of(word: &[u8]) -> Option<u64>
    ensures { result ≡ spec.number_of word.now }
{
    if word.is_empty() || word.len() > DIGITS_LIMIT {
        return None;
    }
    let mut number: u64 = 0;
    for byte in word {
        if !byte.is_ascii_digit() {
            return None;
        }
        number = number
            .checked_mul(10)?
            .checked_add(u64::from(*byte - b'0'))?;
    }
    Some(number)
}
