//! A sight for each claim that is in the way.

ghost use Rattle.std.specs.Prelude.{◌≡◌, ◌++◌, [], ◌∷◌, map, Some, None, option_map, IfOk, OnOk};
ghost use Rattle.lock_sights.specs.declared.sight.Matter.TheVariants as matter;
ghost use Rattle.claim_sights.specs.Grips.{all_grips};
ghost use Rattle.claim_sights.specs.Seen as spec;

use crate::grips::{all_grips, put_grips_of};
use crate::seats::wanted_by;
use ds_base::{MemberId, NoMemory, TranId};
use ds_model::{Name, Tran};
use lock_names::{Mode, is_same_name};
use lock_sights::{Grip, Lock, Matter, Sight};
use member_marks::Marks;
use std::alloc::Global;

// Adds a sight of a lock that a transaction wants.
fn put_lock_sight(
    sights: &mut Vec<Sight>,
    place: u64,
    tran: &TranId,
    name: &Name,
    mode: Mode,
    grip: Option<Grip>,
) -> Result<(), NoMemory>
    ensures { OnOk result (sights.new.items ≡ sights.old.items ++ spec.sight_with place tran.now (matter.Lock name.now mode) grip ∷ []) }
{
    sights.push(Sight {
        place,
        tran: *tran,
        matter: Matter::Lock { name: *name, mode },
        grip,
    })?;
    Ok(())
}

// Adds a sight of a claim of a member that fails.
fn put_failure_sight(
    sights: &mut Vec<Sight>,
    place: u64,
    tran: &TranId,
    member: MemberId,
    name: &Name,
    grip: Option<Grip>,
) -> Result<(), NoMemory>
    ensures { OnOk result (sights.new.items ≡ sights.old.items ++ spec.sight_with place tran.now (matter.Failure member name.now) grip ∷ []) }
{
    sights.push(Sight {
        place,
        tran: *tran,
        matter: Matter::Failure {
            member,
            name: *name,
        },
        grip,
    })?;
    Ok(())
}

/// Adds a sight of a transaction that awaits a flag.
pub fn put_flag_sight(
    sights: &mut Vec<Sight>,
    place: u64,
    tran: &TranId,
    flag: u8,
    raiser: &TranId,
) -> Result<(), NoMemory>
    ensures { OnOk result (sights.new.items ≡ sights.old.items ++ spec.sight_with place tran.now (matter.Flag flag raiser.now) None ∷ []) }
{
    sights.push(Sight {
        place,
        tran: *tran,
        matter: Matter::Flag {
            flag,
            raiser: *raiser,
        },
        grip: None,
    })?;
    Ok(())
}

// Adds a sight for each claim that is in the way of a lock.
fn put_lock_sights(
    sights: &mut Vec<Sight>,
    place: u64,
    tran: &TranId,
    lock: &Lock,
    grips: &[Grip],
) -> Result<(), NoMemory>
    ensures { OnOk result (sights.new.items ≡ sights.old.items ++ map (spec.with_grip place tran.now (spec.lock_matter lock.now)) grips.now) }
{
    for grip in grips {
        put_lock_sight(sights, place, tran, &lock.name, lock.mode, Some(*grip))?;
    }
    Ok(())
}

// Adds a sight for each claim of a member that fails.
fn put_failure_sights(
    sights: &mut Vec<Sight>,
    place: u64,
    tran: &TranId,
    member: MemberId,
    name: &Name,
    grips: &[Grip],
) -> Result<(), NoMemory>
    ensures { OnOk result (sights.new.items ≡ sights.old.items ++ map (spec.with_grip place tran.now (matter.Failure member name.now)) grips.now) }
{
    for grip in grips {
        put_failure_sight(sights, place, tran, member, name, Some(*grip))?;
    }
    Ok(())
}

// Adds a sight for each claim that is in the way of a lock, or one without any.
fn put_shown(
    sights: &mut Vec<Sight>,
    place: u64,
    tran: &TranId,
    lock: &Lock,
    grips: &[Grip],
) -> Result<(), NoMemory>
    ensures { OnOk result (sights.new.items ≡ sights.old.items ++ spec.shown place tran.now (spec.lock_matter lock.now) grips.now) }
{
    if grips.is_empty() {
        return put_lock_sight(sights, place, tran, &lock.name, lock.mode, None);
    }
    put_lock_sights(sights, place, tran, lock, grips)
}

fn is_about(name: &Option<Name>, wanted: &Name) -> bool
    ensures { result ≡ spec.is_about name.now wanted.now }
{
    match name {
        Some(name) => is_same_name(name, wanted),
        None => true,
    }
}

fn put_wanted(
    alloc: Global,
    sights: &mut Vec<Sight>,
    all: &[&Marks],
    place: u64,
    tran: &TranId,
    lock: &Lock,
) -> Result<(), NoMemory>
    ensures { OnOk result (sights.new.items ≡ sights.old.items ++ spec.shown place tran.now (spec.lock_matter lock.now) (all_grips (map (λ m. m.now) all.now) lock.now tran.now)) }
{
    let grips = all_grips(alloc, all, lock, tran)?;
    put_shown(sights, place, tran, lock, &grips)
}

/// Adds who is in the way of the lock that a transaction wants; of this lock alone, where it is named.
pub fn put_sights_for(
    alloc: Global,
    sights: &mut Vec<Sight>,
    all: &[&Marks],
    roster: &[&Tran],
    place: u64,
    name: &Option<Name>,
    tran: &TranId,
) -> Result<(), NoMemory>
    ensures { OnOk result (sights.new.items ≡ sights.old.items ++ spec.sights_for (map (λ m. m.now) all.now) (map (λ t. t.now) roster.now) place name.now tran.now) }
{
    match wanted_by(all, roster, tran) {
        Some(lock) if is_about(name, &lock.name) => {
            put_wanted(alloc, sights, all, place, tran, &lock)
        }
        _ => Ok(()),
    }
}

fn put_failure(
    alloc: Global,
    sights: &mut Vec<Sight>,
    place: u64,
    tran: &TranId,
    member: MemberId,
    name: &Name,
    marks: &Marks,
) -> Result<(), NoMemory>
    ensures { OnOk result (sights.new.items ≡ sights.old.items ++ spec.failure_sights place tran.now member name.now (Some marks.now)) }
{
    let lock = Lock {
        name: *name,
        mode: Mode::S,
    };
    let mut grips = Vec::new(alloc);
    put_grips_of(alloc, &mut grips, marks, &lock, tran)?;
    put_failure_sights(sights, place, tran, member, name, &grips)
}

/// What a member has of a lock that it is about to retain: a claim that is recorded is in the way of S.
pub fn failure_sights(
    alloc: Global,
    place: u64,
    tran: &TranId,
    member: MemberId,
    name: &Name,
    marks: Option<&Marks>,
) -> Result<Vec<Sight>, NoMemory>
    ensures { IfOk result (λ sights. sights.items ≡ spec.failure_sights place tran.now member name.now (option_map (λ m. m.now) marks.entry)) }
{
    let mut sights = Vec::new(alloc);
    if let Some(marks) = marks {
        put_failure(alloc, &mut sights, place, tran, member, name, marks)?;
    }
    Ok(sights)
}
