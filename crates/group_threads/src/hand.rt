ghost use Rattle.std.specs.Prelude.{◌≡◌, ℕ, ◌+◌, ◌*◌, ◌/◌, ◌%◌, ◌<◌, ◌≤◌, true, false, IfSome, IfNone};
ghost use Rattle.choice_bits.specs.Choices.{has_choice};

use crate::members::Members;
use group_core::Policy;
use group_member::{CHOICES, MemberPart, has_choice};
use member_intents::Intent;

/// What the thread of a member holds.
#[derive(Drop)]
pub struct Hand<P> {
    pub part: MemberPart<P>,
    /// Whom the member's last event concerns: something may be ready of them that wasn't before, or is answered.
    pub concerned: Members,
    /// The choice of the member's last event, by its bit, where it has asked for answers of others and wants to ask again.
    pub asks: u32,
}

// The least ready choice from this one on.
fn choice_from(ready: u32, first: u64) -> Option<u64>
    ensures some { IfSome result (λ choice. (first ≤ choice) × (choice < 23) × (has_choice ready choice ≡ true)) }
    ensures least { IfSome result (λ choice. (k : ℕ) → first ≤ k → k < choice → has_choice ready k ≡ false) }
    ensures none { IfNone result ((k : ℕ) → first ≤ k → has_choice ready k ≡ false) }
{
    for choice in first..CHOICES {
        if has_choice(ready, choice) {
            return Some(choice);
        }
    }
    None
}

/// The event that a member takes next, by which of its choices are ready: the least from this number on, or else the least of all.
pub fn next_event(ready: u32, member: u64, from: u64) -> Option<u64>
    requires { member < 64 }
    ensures mine { IfSome result (λ event. event % 64 ≡ member) }
    ensures ready { IfSome result (λ event. has_choice ready (event / 64) ≡ true) }
    ensures least { IfSome result (λ event. (choice : ℕ) → has_choice ready choice ≡ true → from ≤ choice * 64 + member → (from ≤ event) × (event ≤ choice * 64 + member)) }
    ensures none { IfNone result ((choice : ℕ) → has_choice ready choice ≡ false) }
{
    let first = from.saturating_sub(member).div_ceil(64);
    let choice = match choice_from(ready, first) {
        Some(choice) => choice,
        None => choice_from(ready, 0)?,
    };
    Some(choice * 64 + member)
}

/// Whether the choice wants to ask for answers, or to take another query: until others have done something that comes to nothing.
pub fn wants_others<P: Policy>(part: &MemberPart<P>, choice: u64) -> bool {
    matches!(
        part.intent(choice),
        Intent::Answers { .. } | Intent::Take { .. }
    )
}

/// Whether the choice wants to end a transaction.
pub fn ends_one<P: Policy>(part: &MemberPart<P>, choice: u64) -> bool {
    matches!(part.intent(choice), Intent::End { .. })
}

/// Of these choices, by their bits, those that still want nothing else.
pub fn still_asking<P: Policy>(part: &MemberPart<P>, asking: u32) -> u32 {
    if asking == 0 {
        return 0;
    }
    let mut still = 0u32;
    for choice in 0..CHOICES {
        if has_choice(asking, choice) && wants_others(part, choice) {
            still |= 1 << choice;
        }
    }
    still
}
