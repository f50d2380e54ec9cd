ghost use Rattle.std.specs.Prelude.{◌≡◌, ◌+◌, OnOk, IfOk};
ghost use Rattle.std.specs.List.{AllByRecursion};
ghost use Rattle.std.specs.FinMap as finite;
ghost use Rattle.ds_model.specs.RecordBytes.{IsAllowed};
ghost use Rattle.log_trans.specs.Damage.{AreAllowed};
ghost use Rattle.checkpoint_offsets.specs.Offsets.{offset_field, names_one_of, names_own, with_place, fault_from, all_own, fault_in, offset_damage, is_earlier, earlier};

use ds_base::{Lrsn, NoMemory};
use ds_model::{Body, LogRecord, Version};
use log_reader::place_in;
use log_record::{Log, record_length};
use log_trans::Damaged;
use number_map::NumberMap;
use std::alloc::Global;

// No log is so long that a number of 64 bits doesn't hold its length.
fn behind(place: u64, more: u64) -> Result<u64, NoMemory>
    ensures { IfOk result (λ sum. sum ≡ place + more) }
{
    place.checked_add(more).ok_or(NoMemory)
}

// A place of a log as a number of the map.
fn place_number(place: u64) -> Lrsn
    ensures { result ≡ place }
{
    match Lrsn::new(u128::from(place)) {
        Some(number) => number,
        None => unreachable!(),
    }
}

fn add_place(places: &mut NumberMap<bool>, place: u64) -> Result<(), NoMemory>
    ensures { OnOk result (places.new ≡ with_place places.old place) }
{
    places.put(place_number(place), true)
}

fn names_one_of(places: &NumberMap<bool>, body: &Body) -> bool
    ensures { result ≡ names_one_of places.now body.now }
{
    match body {
        Body::Checkpoint { offset } => places.get(place_number(*offset)).is_some(),
        _ => true,
    }
}

fn names_own(place: u64, body: &Body) -> bool
    ensures { result ≡ names_own place body.now }
{
    match body {
        Body::Checkpoint { offset } => *offset == place,
        _ => true,
    }
}

// Where the offset of a checkpoint of this version begins in it.
fn offset_field(version: Version) -> u64
    ensures { result ≡ offset_field version }
{
    match version {
        Version::One => 18,
        Version::Two => 26,
    }
}

// Where the first offset begins of these records, the first of which begins at this byte, that names no place of them up to its record.
#[tactic(auto, using(crate::proofs::Fitting::fits_of))]
fn fault_from(alloc: Global, begin: u64, records: &[LogRecord]) -> Result<Option<u64>, NoMemory>
    requires { AllByRecursion IsAllowed records.now }
    ensures { IfOk result (λ found. found ≡ fault_from finite.empty begin records.now) }
{
    let mut places = NumberMap::new(alloc);
    let mut at = begin;
    for record in records {
        add_place(&mut places, at)?;
        if !names_one_of(&places, &record.body) {
            return Ok(Some(behind(at, offset_field(record.version))?));
        }
        at = behind(at, record_length(record) as u64)?;
    }
    Ok(None)
}

// Whether each checkpoint of these records names its own place.
#[tactic(auto, using(crate::proofs::Fitting::fits_of))]
fn all_own(begin: u64, records: &[LogRecord]) -> Result<bool, NoMemory>
    requires { AllByRecursion IsAllowed records.now }
    ensures { IfOk result (λ all. all ≡ all_own begin records.now) }
{
    let mut at = begin;
    for record in records {
        if !names_own(at, &record.body) {
            return Ok(false);
        }
        at = behind(at, record_length(record) as u64)?;
    }
    Ok(true)
}

// Places are looked up only where a checkpoint doesn't name its own.
#[tactic(auto, using(crate::proofs::Own::none_of_own))]
fn fault_in(alloc: Global, log: &Log) -> Result<Option<u64>, NoMemory>
    requires { AllByRecursion IsAllowed log.now.records }
    ensures { IfOk result (λ found. found ≡ fault_in log.now) }
{
    let begin = place_in(log, 0)?;
    if all_own(begin, log.records())? {
        return Ok(None);
    }
    fault_from(alloc, begin, log.records())
}

/// Where the first offset of a checkpoint begins, by the order of the logs, that isn't the place of a record of its log that was read, or lies
/// behind its own record.
///
/// It takes time in the number of records, times its logarithm for a log with a checkpoint that doesn't name its own place.
pub fn find_wrong_offset(alloc: Global, logs: &[Log]) -> Result<Option<Damaged>, NoMemory>
    requires { AreAllowed logs.now }
    ensures { IfOk result (λ found. found ≡ offset_damage logs.now) }
{
    for log in logs {
        if let Some(at) = fault_in(alloc, log)? {
            return Ok(Some(Damaged {
                member: log.member,
                at,
            }));
        }
    }
    Ok(None)
}

fn is_earlier(one: Damaged, other: Damaged) -> bool
    ensures { result ≡ is_earlier one other }
{
    one.member < other.member || one.member == other.member && one.at < other.at
}

/// The earlier one of two places, by the members' order and in a log by its bytes.
pub fn earlier(one: Option<Damaged>, other: Option<Damaged>) -> Option<Damaged>
    ensures { result ≡ earlier one other }
{
    let Some(first) = one else {
        return other;
    };
    let Some(second) = other else {
        return Some(first);
    };
    Some(if is_earlier(second, first) {
        second
    } else {
        first
    })
}
