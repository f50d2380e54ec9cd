//! The claims of all owners on a name or in an entry of the lock table.

ghost use Rattle.std.specs.Prelude.{◌≡◌, ◌<◌, ◌≤◌, length, slice_set, IfSome, None};
ghost use Rattle.lock_manager.specs.Claims.{joined_both};
ghost use Rattle.lock_manager.specs.Holders.{first_in_way, mode_of_all, is_held, is_owner};

use crate::claim::{is_in_the_way, joined};
use crate::holds::Holds;
use ds_model::Name;
use lock_names::Mode;

fn is_owner(asker: Option<u8>, at: usize) -> bool
    ensures { result ≡ is_owner asker at }
{
    match asker {
        Some(owner) => at == owner as usize,
        None => false,
    }
}

/// The first owner but the asker whose claim on the name is in the way.
#[tactic(auto, using(crate::proofs::Scans::way_step))]
pub fn first_in_the_way(
    holders: &[Holds],
    asker: Option<u8>,
    name: &Name,
    mode: Mode,
) -> Option<usize>
    ensures first { result ≡ first_in_way holders.now 0 asker name.now mode }
    ensures there { IfSome result (λ k. k < length holders.now) }
{
    for (at, claims) in holders.iter().enumerate() {
        if !is_owner(asker, at) && is_in_the_way(claims.find(name), mode) {
            return Some(at);
        }
    }
    None
}

fn joined_both(held: Option<Mode>, more: Option<Mode>) -> Option<Mode>
    ensures { result ≡ joined_both held more }
{
    match more {
        Some(more) => Some(joined(held, more)),
        None => held,
    }
}

/// The join of the modes in which the owners hold the name.
#[tactic(auto, using(crate::proofs::Scans::mode_step))]
pub fn mode_of_all(holders: &[Holds], name: &Name) -> Option<Mode>
    ensures { result ≡ mode_of_all None holders.now name.now }
{
    let mut held = None;
    for claims in holders {
        held = joined_both(held, claims.find(name));
    }
    held
}

/// Whether the name is held by an owner, of whom this one has these claims left.
#[tactic(auto, using(crate::proofs::Scans::held_step))]
pub fn is_held(holders: &[Holds], owner: usize, left: &Holds, name: &Name) -> bool
    requires { owner < length holders.now }
    ensures { result ≡ is_held (slice_set holders.now owner left.now) name.now }
{
    for (at, claims) in holders.iter().enumerate() {
        let claims = if at == owner { left } else { claims };
        if claims.find(name).is_some() {
            return true;
        }
    }
    false
}
