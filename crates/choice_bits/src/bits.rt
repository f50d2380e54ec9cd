ghost use Rattle.std.specs.Prelude.{◌≡◌, ◌<◌, ◌≤◌, length, slice_get, IfSome};
ghost use Rattle.choice_bits.specs.Choices.{choices_of, has_choice};

/// How many choices a member has.
pub const CHOICES: u64 = 23;

/// Whether the bit of the choice is set.
pub fn has_choice(ready: u32, choice: u64) -> bool
    ensures { result ≡ has_choice ready choice }
{
    choice < CHOICES && (ready >> choice) % 2 == 1
}

/// How many choices of a member are ready.
#[tactic(auto, using(crate::proofs::Choices::counted, crate::proofs::Choices::few_counted))]
pub fn count_choices(ready: u32) -> u64
    ensures number { result ≡ length (choices_of ready) }
    ensures few { result ≤ 23 }
{
    (ready % (1 << CHOICES)).count_ones() as u64
}

/// The ready choice before which so many others are ready.
pub fn nth_choice(ready: u32, n: u32) -> Option<u64>
    ensures nth { result ≡ slice_get (choices_of ready) n }
    ensures below { IfSome result (λ choice. choice < 23) }
{
    let mut left = n;
    for choice in 0..CHOICES {
        if has_choice(ready, choice) {
            if left == 0 {
                return Some(choice);
            }
            left -= 1;
        }
    }
    None
}
