//! The claims that are in the way of a lock.

ghost use Rattle.std.specs.Prelude.{◌≡◌, ◌++◌, map, Some, IfOk, OnOk};
ghost use Rattle.std.specs.List.{flat_map};
ghost use Rattle.claim_sights.specs.Grips as spec;

use crate::seats::are_same;
use ds_base::{NoMemory, TranId};
use lock_names::{Mode, compatible};
use lock_sights::{Grip, Lock};
use member_marks::{Marks, Owner};
use std::alloc::Global;

#[tactic(auto, using(crate::proofs::Slots::slots_more))]
fn put_slots(owners: &mut Vec<Owner>, agents: u8) -> Result<(), NoMemory>
    ensures { OnOk result (owners.new.items ≡ owners.old.items ++ spec.slot_owners agents) }
{
    for at in 0..agents {
        owners.push(Owner::Slot(at + 1))?;
    }
    Ok(())
}

// There are fewer than the numbers of places, since memory holds them.
#[tactic(auto, using(crate::proofs::Slots::rollbacks_at))]
fn put_rollbacks(owners: &mut Vec<Owner>, marks: &Marks) -> Result<(), NoMemory>
    ensures { OnOk result (owners.new.items ≡ owners.old.items ++ spec.rollback_owners marks.now marks.now.trans.rollbacks) }
{
    for at in 0..u32::MAX {
        let Some((id, _)) = marks.postponed(at) else {
            return Ok(());
        };
        owners.push(Owner::Rollback(id))?;
    }
    Err(NoMemory)
}

// Who may claim locks of a member.
fn owners_of(alloc: Global, marks: &Marks) -> Result<Vec<Owner>, NoMemory>
    ensures { IfOk result (λ owners. owners.items ≡ spec.owners_of marks.now) }
{
    let mut owners = Vec::new(alloc);
    put_slots(&mut owners, marks.agents())?;
    put_rollbacks(&mut owners, marks)?;
    Ok(owners)
}

fn claim_of(marks: &Marks, owner: &Owner, held: Mode) -> Grip
    ensures { result ≡ spec.claim_of marks.now owner.now held }
{
    Grip {
        tran: marks.tran(owner),
        owner: *owner,
        mode: held,
        since: 0,
    }
}

fn put_claim(
    grips: &mut Vec<Grip>,
    marks: &Marks,
    owner: &Owner,
    mode: Mode,
    tran: &TranId,
    held: Mode,
) -> Result<(), NoMemory>
    ensures { OnOk result (grips.new.items ≡ grips.old.items ++ spec.grip_with marks.now owner.now mode tran.now (Some held)) }
{
    if !are_same(&marks.tran(owner), tran) && !compatible(held, mode) {
        grips.push(claim_of(marks, owner, held))?;
    }
    Ok(())
}

// Adds the owner's claim, where another transaction than this one has it, and it is in the way of the lock.
fn put_grip(
    grips: &mut Vec<Grip>,
    marks: &Marks,
    owner: &Owner,
    lock: &Lock,
    tran: &TranId,
) -> Result<(), NoMemory>
    ensures { OnOk result (grips.new.items ≡ grips.old.items ++ spec.grip_of marks.now lock.now tran.now owner.now) }
{
    match marks.holds(owner, &lock.name) {
        Some(held) => put_claim(grips, marks, owner, lock.mode, tran, held),
        None => Ok(()),
    }
}

fn put_grips(
    grips: &mut Vec<Grip>,
    marks: &Marks,
    owners: &[Owner],
    lock: &Lock,
    tran: &TranId,
) -> Result<(), NoMemory>
    ensures { OnOk result (grips.new.items ≡ grips.old.items ++ flat_map (spec.grip_of marks.now lock.now tran.now) owners.now) }
{
    for owner in owners {
        put_grip(grips, marks, owner, lock, tran)?;
    }
    Ok(())
}

/// Adds the claims of other transactions of a member that are in the way of the lock.
pub fn put_grips_of(
    alloc: Global,
    grips: &mut Vec<Grip>,
    marks: &Marks,
    lock: &Lock,
    tran: &TranId,
) -> Result<(), NoMemory>
    ensures { OnOk result (grips.new.items ≡ grips.old.items ++ spec.grips_of marks.now lock.now tran.now) }
{
    let owners = owners_of(alloc, marks)?;
    put_grips(grips, marks, &owners, lock, tran)
}

/// The claims of other transactions that are in the way of the lock.
pub fn all_grips(
    alloc: Global,
    all: &[&Marks],
    lock: &Lock,
    tran: &TranId,
) -> Result<Vec<Grip>, NoMemory>
    ensures { IfOk result (λ grips. grips.items ≡ spec.all_grips (map (λ m. m.now) all.now) lock.now tran.now) }
{
    let mut grips = Vec::new(alloc);
    for marks in all {
        put_grips_of(alloc, &mut grips, marks, lock, tran)?;
    }
    Ok(grips)
}
