//! Since when claims stood.

ghost use Rattle.std.specs.Prelude.{◌≡◌, map};
ghost use Rattle.claim_sights.specs.Dates as spec;

use crate::seats::{are_same, marks_at};
use ds_model::Name;
use lock_names::{Mode, is_same_mode};
use lock_sights::{Grip, Matter, Sight};
use member_marks::Marks;

// The lock of which claims were seen.
fn name_in(matter: &Matter) -> Option<Name>
    ensures { result ≡ spec.name_in matter.now }
{
    match matter {
        Matter::Lock { name, .. } | Matter::Failure { name, .. } => Some(*name),
        Matter::Flag { .. } => None,
    }
}

fn is_mode(held: Option<Mode>, mode: Mode) -> bool
    ensures { result ≡ spec.is_mode held mode }
{
    match held {
        Some(held) => is_same_mode(held, mode),
        None => false,
    }
}

// Whether the claim stands.
fn stands(all: &[&Marks], name: &Name, grip: &Grip) -> bool
    ensures { result ≡ spec.stands (map (λ m. m.now) all.now) name.now grip.now }
{
    match marks_at(all, grip.tran.member.number()) {
        Some(marks) => {
            is_mode(marks.holds(&grip.owner, name), grip.mode)
                && are_same(&marks.tran(&grip.owner), &grip.tran)
        }
        None => false,
    }
}

fn since_after(stands: bool, place: u64, since: u64) -> u64
    ensures { result ≡ spec.since_after stands place since }
{
    if !stands {
        0
    } else if since == 0 {
        place
    } else {
        since
    }
}

// The claim behind one event more.
fn dated(all: &[&Marks], name: &Name, place: u64, grip: &Grip) -> Grip
    ensures { result ≡ spec.dated (map (λ m. m.now) all.now) name.now place grip.now }
{
    Grip {
        since: since_after(stands(all, name, grip), place, grip.since),
        ..*grip
    }
}

fn dated_by(all: &[&Marks], name: Option<Name>, place: u64, grip: &Option<Grip>) -> Option<Grip>
    ensures { result ≡ spec.dated_by (map (λ m. m.now) all.now) name place grip.now }
{
    match (name, grip) {
        (Some(name), Some(grip)) => Some(dated(all, &name, place, grip)),
        (None, Some(grip)) => Some(*grip),
        (_, None) => None,
    }
}

// Whether it is seen before its event, and not behind it.
fn comes_before(matter: &Matter) -> bool
    ensures { result ≡ spec.comes_before matter.now }
{
    match matter {
        Matter::Failure { .. } => true,
        Matter::Lock { .. } | Matter::Flag { .. } => false,
    }
}

// Whether it is followed up to this event: up to its own, or only before it.
fn is_followed(sight: &Sight, place: u64) -> bool
    ensures { result ≡ spec.is_followed (spec.comes_before sight.now.matter) place sight.now.place }
{
    if comes_before(&sight.matter) {
        place < sight.place
    } else {
        place <= sight.place
    }
}

// A sight behind the event of this place.
fn sight_after(all: &[&Marks], place: u64, sight: &Sight) -> Sight
    ensures { result ≡ spec.sight_after (map (λ m. m.now) all.now) place sight.now }
{
    if !is_followed(sight, place) {
        return *sight;
    }
    Sight {
        grip: dated_by(all, name_in(&sight.matter), place, &sight.grip),
        ..*sight
    }
}

/// The sights behind the event of this place: a claim stands since that event, or since before, or not any more.
pub fn follow_all(sights: &mut [Sight], all: &[&Marks], place: u64)
    ensures { sights.new ≡ spec.sights_after (map (λ m. m.now) all.now) place sights.old }
{
    for sight in sights {
        *sight = sight_after(all, place, sight);
    }
}
