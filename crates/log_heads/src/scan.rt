//! The look at each of the logs.

ghost use Rattle.std.specs.Prelude.{◌≡◌, ◌+◌, ◌<◌, ◌≤◌, ℕ, true, None, length, slice_set};
ghost use Rattle.log_head.specs.Heads.{standing_of, first_of, after_take};
ghost use Rattle.log_heads.specs.Heads.{stop_of, first_stop, least_of_two, least_from, head_at, taken_record, taken_by, heads_by};

use crate::taken::Taken;
use ds_base::{Lrsn, MemberId};
use log_head::{Head, Standing};

// The member behind so many others.
pub fn member_behind(n: usize) -> MemberId
    requires { n < 32 }
    ensures { result ≡ n + 1 }
{
    match MemberId::new(n as u64 + 1) {
        Some(member) => member,
        None => unreachable!(),
    }
}

fn stop_of(place: usize, head: &Head, block: u32) -> Option<Taken>
    requires { place < 32 }
    ensures { result ≡ stop_of (place + 1) head.now.end (standing_of block head.now) }
{
    let member = member_behind(place);
    let end = head.end();
    match head.standing(block) {
        Standing::Ready => None,
        Standing::Wants { at, count } => Some(Taken::Wants { member, at, count }),
        Standing::Bad { at } => Some(Taken::Bad { member, at }),
        Standing::Ends { at } if at < end => Some(Taken::Bad { member, at: end }),
        Standing::Ends { .. } => None,
    }
}

// Whether a log can go on.
fn goes_on(head: &Head, block: u32) -> bool
    ensures { result ≡ true → (member : ℕ) → stop_of member head.now.end (standing_of block head.now) ≡ None }
{
    match head.standing(block) {
        Standing::Ready => true,
        Standing::Ends { at } => head.end() <= at,
        Standing::Wants { .. } | Standing::Bad { .. } => false,
    }
}

/// The first log that can't go on.
#[tactic(auto, using(crate::proofs::Scans::stop_here, crate::proofs::Scans::stop_behind, crate::proofs::Scans::stop_none))]
pub fn first_stop(heads: &[Head], block: u32) -> Option<Taken>
    requires { length heads.now ≤ 32 }
    ensures { result ≡ first_stop block 1 heads.now }
{
    for place in 0..heads.len() {
        if goes_on(&heads[place], block) {
            continue;
        }
        if let Some(stop) = stop_of(place, &heads[place], block) {
            return Some(stop);
        }
    }
    None
}

fn least_of_two(
    place: usize,
    number: Option<Lrsn>,
    later: Option<(usize, Lrsn)>,
) -> Option<(usize, Lrsn)>
    ensures { result ≡ least_of_two place number later }
{
    match (number, later) {
        (None, later) => later,
        (Some(number), None) => Some((place, number)),
        (Some(number), Some((behind, other))) => {
            if number.number() <= other.number() {
                Some((place, number))
            } else {
                Some((behind, other))
            }
        }
    }
}

/// The place of the log whose first record has the least number, and that number; of equal ones the first.
#[tactic(auto, using(crate::proofs::Scans::least_here, crate::proofs::Scans::least_none))]
pub fn least(heads: &[Head]) -> Option<(usize, Lrsn)>
    ensures { result ≡ least_from 0 heads.now }
{
    let mut least = None;
    let mut place = heads.len();
    while place > 0 {
        place -= 1;
        least = least_of_two(place, heads[place].number(), least);
    }
    least
}

// Takes the first record of the log at this place.
fn take_at(heads: &mut [Head], place: usize) -> Taken
    requires in_bounds { place < length heads.old }
    requires members { length heads.old ≤ 32 }
    ensures taken { result ≡ taken_record (place + 1) (first_of (head_at heads.old place)) }
    ensures after { heads.new ≡ slice_set heads.old place (after_take (head_at heads.old place)) }
{
    let member = member_behind(place);
    match heads[place].take() {
        Some(it) => Taken::Record { member, it },
        None => Taken::End,
    }
}

/// Takes the record with the least number, where no log is in the way.
#[tactic(auto, using(crate::proofs::Takes::least_within))]
pub fn take_least(heads: &mut [Head]) -> Taken
    requires { length heads.old ≤ 32 }
    ensures taken { result ≡ taken_by None heads.old (least_from 0 heads.old) }
    ensures after { heads.new ≡ heads_by None heads.old (least_from 0 heads.old) }
{
    match least(heads) {
        Some((place, _)) => take_at(heads, place),
        None => Taken::End,
    }
}
