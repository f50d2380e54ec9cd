ghost use Rattle.std.specs.Prelude.{◌≡◌, ◌-◌, ◌++◌, ◌∷◌, [], if◌then◌else◌, length, take, OnOk};
ghost use Rattle.std.specs.FinMap as finite;
ghost use Rattle.sound_disk.specs.Checkpoints.{offset_or};
ghost use Rattle.kept_checkpoints.specs.Scan.{is_behind, with_offset, numbers_of, is_last, taken_back, with_numbers, with_body, nothing_scanned, scanned};

use crate::offsets::place_number;
use crate::start::offset_or;
use ds_base::{Lrsn, NoMemory, Sequence};
use ds_model::{Body, LogRecord};
use number_map::NumberMap;
use std::alloc::Global;

/// What is known of a log behind its first records.
#[derive(Drop)]
pub struct LogScan {
    /// The offset of the last Checkpoint: from there on the log is read again.
    pub start: u64,
    /// Whether no Checkpoint's offset is behind its own record.
    pub fits: bool,
    /// The offsets of the Checkpoints, or those of them at which no record was seen to begin.
    pub offsets: NumberMap<bool>,
    /// The row changes of each transaction that are neither committed nor taken back.
    pub changes: NumberMap<Sequence<Lrsn>>,
}

fn is_behind(at: u64, body: &Body) -> bool
    ensures { result ≡ is_behind at body.now }
{
    match body {
        Body::Checkpoint { offset } => *offset <= at,
        _ => true,
    }
}

fn add_offset(offsets: &mut NumberMap<bool>, body: &Body) -> Result<(), NoMemory>
    ensures { OnOk result (offsets.new ≡ with_offset offsets.old body.now) }
{
    match body {
        Body::Checkpoint { offset } => offsets.put(place_number(*offset), true),
        _ => Ok(()),
    }
}

fn is_last(number: Lrsn, numbers: &[Lrsn]) -> bool
    ensures { result ≡ is_last number numbers.now }
{
    match numbers.last() {
        None => false,
        Some(last) => last.number() == number.number(),
    }
}

fn without_last(numbers: Sequence<Lrsn>) -> Sequence<Lrsn>
    ensures { result ≡ take (length numbers - 1) numbers }
{
    let mut items = numbers.into_vec();
    let left = items.len().saturating_sub(1);
    items.truncate(left);
    Sequence::from_vec(items)
}

fn take_back(number: Lrsn, numbers: Sequence<Lrsn>) -> Sequence<Lrsn>
    ensures { result ≡ taken_back number numbers }
{
    if is_last(number, numbers.as_slice()) {
        without_last(numbers)
    } else {
        numbers
    }
}

fn take_numbers(
    alloc: Global,
    changes: &mut NumberMap<Sequence<Lrsn>>,
    tran: Lrsn,
) -> Sequence<Lrsn>
    ensures numbers { result ≡ numbers_of (finite.get changes.old tran) }
    ensures gone { changes.new ≡ finite.remove changes.old tran }
{
    match changes.take(tran) {
        None => Sequence::new(alloc),
        Some(numbers) => numbers,
    }
}

fn put_numbers(
    changes: &mut NumberMap<Sequence<Lrsn>>,
    tran: Lrsn,
    numbers: Sequence<Lrsn>,
) -> Result<(), NoMemory>
    ensures { OnOk result (changes.new ≡ with_numbers changes.old tran numbers) }
{
    if numbers.is_empty() {
        Ok(())
    } else {
        changes.put(tran, numbers)
    }
}

fn change(
    alloc: Global,
    changes: &mut NumberMap<Sequence<Lrsn>>,
    tran: Lrsn,
    lrsn: Lrsn,
) -> Result<(), NoMemory>
    ensures { OnOk result (changes.new ≡ with_numbers (finite.remove changes.old tran) tran (numbers_of (finite.get changes.old tran) ++ lrsn ∷ [])) }
{
    let mut numbers = take_numbers(alloc, changes, tran);
    numbers.push(lrsn)?;
    put_numbers(changes, tran, numbers)
}

fn compensate(
    alloc: Global,
    changes: &mut NumberMap<Sequence<Lrsn>>,
    tran: Lrsn,
    undone: Lrsn,
) -> Result<(), NoMemory>
    ensures { OnOk result (changes.new ≡ with_numbers (finite.remove changes.old tran) tran (taken_back undone (numbers_of (finite.get changes.old tran)))) }
{
    let numbers = take_numbers(alloc, changes, tran);
    put_numbers(changes, tran, take_back(undone, numbers))
}

fn settle(changes: &mut NumberMap<Sequence<Lrsn>>, tran: Lrsn)
    ensures { changes.new ≡ finite.remove changes.old tran }
{
    changes.take(tran);
}

fn enter_body(
    alloc: Global,
    changes: &mut NumberMap<Sequence<Lrsn>>,
    it: &LogRecord,
) -> Result<(), NoMemory>
    ensures { OnOk result (changes.new ≡ with_body changes.old it.now.tran it.now.lrsn it.now.body) }
{
    match &it.body {
        Body::RowChange { .. } => change(alloc, changes, it.tran, it.lrsn),
        Body::Compensation { undone, .. } => compensate(alloc, changes, it.tran, *undone),
        Body::Commit => {
            settle(changes, it.tran);
            Ok(())
        }
        Body::System { .. } | Body::Ended | Body::Checkpoint { .. } | Body::RestartEnd => Ok(()),
    }
}

impl LogScan {
    /// Before the first record.
    pub fn new(alloc: Global) -> LogScan
        ensures { result ≡ nothing_scanned }
    {
        LogScan {
            start: 0,
            fits: true,
            offsets: NumberMap::new(alloc),
            changes: NumberMap::new(alloc),
        }
    }

    /// Takes in the next record, which begins at this place.
    pub fn enter(&mut self, alloc: Global, at: u64, it: &LogRecord) -> Result<(), NoMemory>
        ensures { OnOk result (self.new ≡ scanned self.old at it.now) }
    {
        self.start = offset_or(self.start, &it.body);
        self.fits = self.fits && is_behind(at, &it.body);
        add_offset(&mut self.offsets, &it.body)?;
        enter_body(alloc, &mut self.changes, it)
    }
}
