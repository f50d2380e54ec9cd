//! The seat of a transaction, the lock that it wants, and the flag that it may await.

ghost use Rattle.std.specs.Prelude.{◌≡◌, map, option_map};
ghost use Rattle.std.specs.List.{list_any};
ghost use Rattle.member_marks.specs.Claims.{mode_held};
ghost use Rattle.lock_sights.specs.Locks as locks;
ghost use Rattle.claim_sights.specs.Seats as spec;

use ds_base::TranId;
use ds_model::{Op, Tran};
use lock_manager::claim::is_covered;
use lock_sights::{Lock, row_lock, space_lock, tran_at};
use member_marks::{Marks, Owner};

pub fn are_same(a: &TranId, b: &TranId) -> bool
    ensures { result ≡ spec.are_same a.now b.now }
{
    a.member.number() == b.member.number() && a.number == b.number
}

/// What the member with this number holds; none where there is no such member.
pub fn marks_at<'a>(all: &[&'a Marks], member: u64) -> Option<&'a Marks>
    ensures { option_map (λ m. m.now) result ≡ spec.marks_at (map (λ m. m.now) all.now) member }
{
    if 1 <= member && member - 1 < all.len() as u64 {
        Some(all[member as usize - 1])
    } else {
        None
    }
}

fn is_seat(marks: &Marks, tran: &TranId, slot: u8) -> bool
    ensures { result ≡ spec.is_seat marks.now tran.now slot }
{
    are_same(&marks.tran(&Owner::Slot(slot)), tran)
}

fn or_seat(first: Option<u8>, is_here: bool, other: u8) -> Option<u8>
    ensures { result ≡ spec.or_seat first is_here other }
{
    match first {
        Some(slot) => Some(slot),
        None if is_here => Some(other),
        None => None,
    }
}

/// The seat in which the transaction is.
#[tactic(auto, using(crate::proofs::Slots::seat_more), unfolding(crate::specs::Seats::seat_within))]
pub fn seat_of(marks: &Marks, tran: &TranId) -> Option<u8>
    ensures { result ≡ spec.seat_in marks.now tran.now }
{
    let mut seat = None;
    for at in 0..marks.agents() {
        seat = or_seat(seat, is_seat(marks, tran, at + 1), at + 1);
    }
    seat
}

// The lock, unless the owner has it.
fn lacking(marks: &Marks, owner: &Owner, lock: Option<Lock>) -> Option<Lock>
    ensures { result ≡ locks.lacking (mode_held marks.now owner.now) lock }
{
    match lock {
        Some(lock) if !is_covered(marks.holds(owner, &lock.name), lock.mode) => Some(lock),
        _ => None,
    }
}

fn lacking_for(marks: &Marks, owner: &Owner, op: &Op) -> Option<Lock>
    ensures { result ≡ locks.lacking_for (mode_held marks.now owner.now) op.now }
{
    match lacking(marks, owner, space_lock(op)) {
        Some(lock) => Some(lock),
        None => lacking(marks, owner, row_lock(op)),
    }
}

// The first lock of these operations that the owner lacks.
fn wanted(marks: &Marks, owner: &Owner, ops: &[Op]) -> Option<Lock>
    ensures { result ≡ locks.wanted (mode_held marks.now owner.now) ops.now }
{
    for op in ops {
        let lock = lacking_for(marks, owner, op);
        if lock.is_some() {
            return lock;
        }
    }
    None
}

fn wanted_from(marks: &Marks, ops: &[Op], slot: Option<u8>) -> Option<Lock>
    ensures { result ≡ spec.wanted_from marks.now ops.now slot }
{
    match slot {
        Some(slot) => wanted(marks, &Owner::Slot(slot), ops),
        None => None,
    }
}

/// The lock that a transaction wants.
pub fn wanted_by(all: &[&Marks], roster: &[&Tran], tran: &TranId) -> Option<Lock>
    ensures { result ≡ spec.wanted_by (map (λ m. m.now) all.now) (map (λ t. t.now) roster.now) tran.now }
{
    match (
        marks_at(all, tran.member.number()),
        tran_at(roster, tran.number),
    ) {
        (Some(marks), Some(it)) => wanted_from(marks, it.ops.as_slice(), seat_of(marks, tran)),
        _ => None,
    }
}

fn is_await(flag: u8, op: &Op) -> bool
    ensures { result ≡ spec.is_await flag op.now }
{
    match op {
        Op::Await { flag: f } => *f == flag,
        _ => false,
    }
}

fn is_raise(flag: u8, op: &Op) -> bool
    ensures { result ≡ spec.is_raise flag op.now }
{
    match op {
        Op::Raise { flag: f } => *f == flag,
        _ => false,
    }
}

#[tactic(auto, using(std::proofs::lemmas::List::Folds::list_any_more))]
fn any_await(flag: u8, ops: &[Op]) -> bool
    ensures { result ≡ list_any (spec.is_await flag) ops.now }
{
    let mut found = false;
    for op in ops {
        found = found || is_await(flag, op);
    }
    found
}

#[tactic(auto, using(std::proofs::lemmas::List::Folds::list_any_more))]
fn any_raise(flag: u8, ops: &[Op]) -> bool
    ensures { result ≡ list_any (spec.is_raise flag) ops.now }
{
    let mut found = false;
    for op in ops {
        found = found || is_raise(flag, op);
    }
    found
}

fn has_await(flag: u8, tran: Option<&Tran>) -> bool
    ensures { result ≡ spec.has_op (spec.is_await flag) (option_map (λ t. t.now) tran.entry) }
{
    match tran {
        Some(tran) => any_await(flag, tran.ops.as_slice()),
        None => false,
    }
}

fn has_raise(flag: u8, tran: Option<&Tran>) -> bool
    ensures { result ≡ spec.has_op (spec.is_raise flag) (option_map (λ t. t.now) tran.entry) }
{
    match tran {
        Some(tran) => any_raise(flag, tran.ops.as_slice()),
        None => false,
    }
}

/// Whether by the script the transaction awaits the flag, and the other one raises it.
pub fn is_awaited(roster: &[&Tran], tran: &TranId, flag: u8, raiser: &TranId) -> bool
    ensures { result ≡ spec.is_awaited (map (λ t. t.now) roster.now) tran.now flag raiser.now }
{
    has_await(flag, tran_at(roster, tran.number)) && has_raise(flag, tran_at(roster, raiser.number))
}
