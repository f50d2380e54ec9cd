//! A line for each sight.

ghost use Rattle.std.specs.Prelude.{◌≡◌, ◌++◌, map, OnOk};
ghost use Rattle.lock_sights.specs.Lines as spec;

use crate::sight::{Grip, Matter, Sight};
use crate::words::{put_lock, put_mode, put_number, put_of_member, put_tran};
use ds_base::{Bytes, MemberId, NoMemory, TranId};
use ds_model::{Name, Tran};
use lock_names::Mode;
use std::alloc::Global;

// Adds in which mode a claim stood, and since when.
#[tactic(auto, unfolding(crate::specs::Lines::since_text))]
fn put_since(alloc: Global, out: &mut Bytes, grip: &Grip) -> Result<(), NoMemory>
    ensures { OnOk result (out.new ≡ out.old ++ spec.since_text grip.now) }
{
    put_mode(out, grip.mode)?;
    put_number(alloc, out, b" since event ", grip.since)
}

#[tactic(auto, unfolding(crate::specs::Lines::held_text))]
fn put_held(alloc: Global, out: &mut Bytes, all: &[&Tran], grip: &Grip) -> Result<(), NoMemory>
    ensures { OnOk result (out.new ≡ out.old ++ spec.held_text (map (λ t. t.now) all.now) grip.now) }
{
    out.extend(b", and ")?;
    put_of_member(alloc, out, all, &grip.tran)?;
    out.extend(b" held it")?;
    put_since(alloc, out, grip)
}

#[tactic(auto, unfolding(crate::specs::Lines::nobody_text))]
fn put_nobody(out: &mut Bytes) -> Result<(), NoMemory>
    ensures { OnOk result (out.new ≡ out.old ++ spec.nobody_text) }
{
    out.extend(b", and no live transaction held it in a mode that conflicts")
}

// Adds the claim that was in the way.
fn put_holder(
    alloc: Global,
    out: &mut Bytes,
    all: &[&Tran],
    grip: &Option<Grip>,
) -> Result<(), NoMemory>
    ensures { OnOk result (out.new ≡ out.old ++ spec.holder_text (map (λ t. t.now) all.now) grip.now) }
{
    match grip {
        Some(grip) => put_held(alloc, out, all, grip),
        None => put_nobody(out),
    }
}

#[tactic(auto, unfolding(crate::specs::Lines::wanted_text))]
fn put_wanted(alloc: Global, out: &mut Bytes, name: &Name, mode: Mode) -> Result<(), NoMemory>
    ensures { OnOk result (out.new ≡ out.old ++ spec.wanted_text name.now mode) }
{
    out.extend(b" wanted ")?;
    put_lock(alloc, out, name)?;
    put_mode(out, mode)
}

#[tactic(auto, unfolding(crate::specs::Lines::raiser_text))]
fn put_raiser(
    alloc: Global,
    out: &mut Bytes,
    all: &[&Tran],
    raiser: &TranId,
) -> Result<(), NoMemory>
    ensures { OnOk result (out.new ≡ out.old ++ spec.raiser_text (map (λ t. t.now) all.now) raiser.now) }
{
    out.extend(b", which ")?;
    put_of_member(alloc, out, all, raiser)?;
    out.extend(b" was to raise")
}

#[tactic(auto, unfolding(crate::specs::Lines::awaited_text))]
fn put_awaited(alloc: Global, out: &mut Bytes, flag: u8) -> Result<(), NoMemory>
    ensures { OnOk result (out.new ≡ out.old ++ spec.awaited_text flag) }
{
    put_number(alloc, out, b" awaited flag ", flag as u64)
}

#[tactic(auto, unfolding(crate::specs::Lines::flag_text))]
fn put_flag(
    alloc: Global,
    out: &mut Bytes,
    all: &[&Tran],
    flag: u8,
    raiser: &TranId,
) -> Result<(), NoMemory>
    ensures { OnOk result (out.new ≡ out.old ++ spec.flag_text (map (λ t. t.now) all.now) flag raiser.now) }
{
    put_awaited(alloc, out, flag)?;
    put_raiser(alloc, out, all, raiser)
}

#[tactic(auto, unfolding(crate::specs::Lines::failed_text))]
fn put_failed(alloc: Global, out: &mut Bytes, member: MemberId) -> Result<(), NoMemory>
    ensures { OnOk result (out.new ≡ out.old ++ spec.failed_text member) }
{
    put_number(alloc, out, b" member ", member.number())?;
    out.extend(b" failed")
}

// Adds what a transaction of a failed member held.
#[tactic(auto, unfolding(crate::specs::Lines::had_text))]
fn put_had(
    alloc: Global,
    out: &mut Bytes,
    all: &[&Tran],
    name: &Name,
    grip: &Grip,
) -> Result<(), NoMemory>
    ensures { OnOk result (out.new ≡ out.old ++ spec.had_text (map (λ t. t.now) all.now) name.now grip.now) }
{
    out.extend(b", and its ")?;
    put_tran(out, all, &grip.tran)?;
    out.extend(b" held ")?;
    put_lock(alloc, out, name)?;
    put_since(alloc, out, grip)
}

#[tactic(auto, unfolding(crate::specs::Lines::failure_matter))]
fn put_failure(
    alloc: Global,
    out: &mut Bytes,
    all: &[&Tran],
    member: MemberId,
    name: &Name,
    grip: &Option<Grip>,
) -> Result<(), NoMemory>
    ensures { OnOk result (out.new ≡ out.old ++ spec.failure_matter (map (λ t. t.now) all.now) member name.now grip.now) }
{
    put_failed(alloc, out, member)?;
    match grip {
        Some(grip) => put_had(alloc, out, all, name, grip),
        None => Ok(()),
    }
}

#[tactic(auto, unfolding(crate::specs::Lines::lock_matter))]
fn put_lock_matter(
    alloc: Global,
    out: &mut Bytes,
    all: &[&Tran],
    tran: &TranId,
    name: &Name,
    mode: Mode,
    grip: &Option<Grip>,
) -> Result<(), NoMemory>
    ensures { OnOk result (out.new ≡ out.old ++ spec.lock_matter (map (λ t. t.now) all.now) tran.now name.now mode grip.now) }
{
    out.extend(b" ")?;
    put_tran(out, all, tran)?;
    put_wanted(alloc, out, name, mode)?;
    put_holder(alloc, out, all, grip)
}

#[tactic(auto, unfolding(crate::specs::Lines::flag_matter))]
fn put_flag_matter(
    alloc: Global,
    out: &mut Bytes,
    all: &[&Tran],
    tran: &TranId,
    flag: u8,
    raiser: &TranId,
) -> Result<(), NoMemory>
    ensures { OnOk result (out.new ≡ out.old ++ spec.flag_matter (map (λ t. t.now) all.now) tran.now flag raiser.now) }
{
    out.extend(b" ")?;
    put_tran(out, all, tran)?;
    put_flag(alloc, out, all, flag, raiser)
}

fn put_matter(
    alloc: Global,
    out: &mut Bytes,
    all: &[&Tran],
    tran: &TranId,
    matter: &Matter,
    grip: &Option<Grip>,
) -> Result<(), NoMemory>
    ensures { OnOk result (out.new ≡ out.old ++ spec.matter_text (map (λ t. t.now) all.now) tran.now matter.now grip.now) }
{
    match matter {
        Matter::Lock { name, mode } => put_lock_matter(alloc, out, all, tran, name, *mode, grip),
        Matter::Flag { flag, raiser } => put_flag_matter(alloc, out, all, tran, *flag, raiser),
        Matter::Failure { member, name } => put_failure(alloc, out, all, *member, name, grip),
    }
}

#[tactic(auto, unfolding(crate::specs::Lines::sight_text))]
fn put_sight(alloc: Global, out: &mut Bytes, all: &[&Tran], sight: &Sight) -> Result<(), NoMemory>
    ensures { OnOk result (out.new ≡ out.old ++ spec.sight_text (map (λ t. t.now) all.now) sight.now) }
{
    put_number(alloc, out, b"at event ", sight.place)?;
    put_matter(alloc, out, all, &sight.tran, &sight.matter, &sight.grip)?;
    out.extend(b"\n")
}

/// Adds a line for each sight, in which transactions have their names.
pub fn put_sights(
    alloc: Global,
    out: &mut Bytes,
    all: &[&Tran],
    sights: &[Sight],
) -> Result<(), NoMemory>
    ensures { OnOk result (out.new ≡ out.old ++ spec.sights_text (map (λ t. t.now) all.now) sights.now) }
{
    for sight in sights {
        put_sight(alloc, out, all, sight)?;
    }
    Ok(())
}
