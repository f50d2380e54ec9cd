//! Which choices are ready.

ghost use Rattle.std.specs.Prelude.{◌≡◌, ◌<◌, ◌≤◌, ◌-◌, ◌^◌};

use crate::rebuilding::Rebuilding;
use crate::restarting::Restarting;
use choice_bits::CHOICES;
use member_intents::Look;
use member_resources::Policy;

/// The member's own duty: to restart, and to be done with the phase.
pub const DUTY: u64 = 0;

/// The rebuild of the lost cache.
pub const REBUILD: u64 = 20;

/// A bit for each choice of a member.
pub(crate) fn all_choices() -> u32
    ensures { result ≡ 2 ^ 23 - 1 }
{
    (1 << CHOICES) - 1
}

// Whether the member's duty is ready. A member that restarts has that for its duty.
fn is_duty_ready<P: Policy>(policy: &P, restart: &Option<Restarting>, look: &Look) -> bool {
    match restart {
        Some(restart) => restart.is_ready(look.bell),
        None => policy.is_ready(DUTY, look),
    }
}

// Whether a rebuild may go on, or begin.
fn is_rebuild_ready(rebuild: &Option<Rebuilding>, look: &Look) -> bool {
    match rebuild {
        Some(rebuild) => rebuild.is_ready(look.bell),
        None => look.is_lost,
    }
}

// The bit of a choice, where it is ready.
fn bit_if(is_ready: bool, choice: u64) -> u32
    requires { choice < 23 }
{
    if is_ready { 1 << choice } else { 0 }
}

// A bit for each of the choices from the first one on, up to the end, that are ready by the policy.
fn ready_between<P: Policy>(policy: &P, first: u64, end: u64, look: &Look) -> u32
    requires { end ≤ 23 }
{
    let mut ready = 0u32;
    for choice in first..end {
        ready |= bit_if(policy.is_ready(choice, look), choice);
    }
    ready
}

/// A bit for each choice of a member that is ready.
pub(crate) fn ready_choices<P: Policy>(
    policy: &P,
    restart: &Option<Restarting>,
    rebuild: &Option<Rebuilding>,
    look: &Look,
) -> u32
    ensures { result < 2 ^ 23 }
{
    let before = ready_between(policy, DUTY + 1, REBUILD, look);
    let behind = ready_between(policy, REBUILD + 1, CHOICES, look);
    let duty = bit_if(is_duty_ready(policy, restart, look), DUTY);
    let rebuild = bit_if(is_rebuild_ready(rebuild, look), REBUILD);
    (before | behind | duty | rebuild) % (1 << CHOICES)
}
