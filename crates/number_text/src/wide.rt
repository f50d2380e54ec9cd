ghost use Rattle.std.specs.Prelude.{◌≡◌};
ghost use Rattle.number_text.specs.Numbers as spec;

// The most digits of a wide number, leading zeros among them.
const DIGITS_LIMIT: usize = 25;

// The least number that is too great.
const END: u128 = 1 << 80;

/// The number below 2^80 that a word spells with 1 to 25 decimal digits.
#[tactic(auto, using(crate::proofs::Digits::read_wide_too_great, crate::proofs::Digits::read_wide_end, crate::proofs::Digits::read_wide_whole))]
pub fn wide_number_of(word: &[u8]) -> Option<u128>
    ensures { result ≡ spec.wide_number_of word.now }
{
    if word.is_empty() || word.len() > DIGITS_LIMIT {
        return None;
    }
    let mut number: u128 = 0;
    for byte in word {
        if !byte.is_ascii_digit() {
            return None;
        }
        number = number
            .checked_mul(10)?
            .checked_add(u128::from(*byte - b'0'))?;
    }
    if number < END { Some(number) } else { None }
}
