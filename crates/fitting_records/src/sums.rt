//! What the records of all logs come to, taken one after the other in the order of their numbers.

ghost use Rattle.std.specs.Prelude.{◌≡◌, ◌-◌, ◌<◌, ◌||◌, max, true, false, length, slice_set, slice_index_or, IfOk, OnOk};
ghost use Rattle.restart_plan.specs.Opened.{is_end};
ghost use Rattle.restart_plan.specs.Renewal.{is_old};
ghost use Rattle.fitting_records.specs.Summed.{any_asks, IsNothing, IsPassedOn, IsAdded};

use crate::passing::Passing;
use ds_base::{MemberId, NoMemory, TableId};
use ds_model::{Body, LogRecord, Version};
use std::alloc::Global;

/// What the records so far come to.
#[derive(Drop)]
pub struct Sums {
    /// What is open, as long as each record is known to fit those before it.
    pub passing: Passing,
    pub fits: bool,
    /// The greatest number.
    pub greatest: u128,
    /// For each log whether it has a record of version 1.
    pub olds: Vec<bool>,
    /// For each log whether its last record is a RestartEnd of version 2.
    pub ends: Vec<bool>,
    /// How many parts of pages of each of the 64 tables are changed. Nothing that is told depends on it.
    pub counts: Vec<usize>,
}

fn is_old(it: &LogRecord) -> bool
    ensures { result ≡ is_old it.now }
{
    match it.version {
        Version::One => true,
        Version::Two => false,
    }
}

fn is_end(it: &LogRecord) -> bool
    ensures { result ≡ is_end it.now }
{
    matches!(it.version, Version::Two) && matches!(&it.body, Body::RestartEnd)
}

// Counts a change of a page of the table.
fn count_one(counts: &mut [usize], table: usize) {
    if let Some(count) = counts.get_mut(table) {
        *count = count.saturating_add(1);
    }
}

fn place_of(table: TableId) -> usize {
    (table.number() as usize).saturating_sub(1)
}

// Each table has two page sets, of which the first is odd.
fn count_changes(counts: &mut [usize], it: &LogRecord) {
    match &it.body {
        Body::RowChange { change } | Body::Compensation { change, .. } => {
            count_one(counts, place_of(change.table));
        }
        Body::System { patches } => {
            for patch in patches.as_slice() {
                count_one(counts, usize::from(patch.page.set.saturating_sub(1) / 2));
            }
        }
        Body::Commit | Body::Ended | Body::Checkpoint { .. } | Body::RestartEnd => {}
    }
}

// Passes the record, if all before it fitted and it is known to fit them.
fn pass(
    alloc: Global,
    passing: &mut Passing,
    fitted: bool,
    member: MemberId,
    it: &LogRecord,
) -> Result<bool, NoMemory>
    ensures fitted { IfOk result (λ fits. fits ≡ true → fitted ≡ true) }
    ensures passed { IfOk result (λ fits. fits ≡ true → IsPassedOn passing.old passing.new member it.now) }
{
    if !fitted || !passing.may_pass(alloc, member, it) {
        return Ok(false);
    }
    passing.pass(alloc, member, it)?;
    Ok(true)
}

fn note_version(olds: &mut [bool], place: usize, it: &LogRecord)
    requires { place < length olds.old }
    ensures { olds.new ≡ slice_set olds.old place (slice_index_or olds.old place false || is_old it.now) }
{
    olds[place] = olds[place] || is_old(it);
}

fn note_end(ends: &mut [bool], place: usize, it: &LogRecord)
    requires { place < length ends.old }
    ensures { ends.new ≡ slice_set ends.old place (is_end it.now) }
{
    ends[place] = is_end(it);
}

/// Whether a log asks for renewal, of which it is noted whether it has a record of version 1 and whether it ends with a RestartEnd
/// of version 2.
#[tactic(auto, using(crate::proofs::Asking::asks_more, crate::proofs::Asking::asks_here, crate::proofs::Asking::asks_end))]
pub fn any_asks(olds: &[bool], ends: &[bool]) -> bool
    requires { length olds.now ≡ length ends.now }
    ensures { result ≡ any_asks olds.now ends.now }
{
    for n in 0..olds.len() {
        if olds[n] && !ends[n] {
            return true;
        }
    }
    false
}

impl Sums {
    pub fn new(alloc: Global) -> Result<Sums, NoMemory>
        ensures nothing { IfOk result IsNothing }
        ensures count { IfOk result (λ s. length s.counts.items ≡ 64) }
    {
        Ok(Sums {
            passing: Passing::new(alloc),
            fits: true,
            greatest: 0,
            olds: vec![in alloc; false; 32]?,
            ends: vec![in alloc; false; 32]?,
            counts: vec![in alloc; 0usize; 64]?,
        })
    }

    /// Takes the next record, which is of the member's log.
    pub fn take(&mut self, alloc: Global, member: MemberId, it: &LogRecord) -> Result<(), NoMemory>
        requires olds { length self.old.olds.items ≡ 32 }
        requires ends { length self.old.ends.items ≡ 32 }
        ensures added { OnOk result (IsAdded self.old self.new member it.now) }
        ensures olds { length self.new.olds.items ≡ 32 }
        ensures ends { length self.new.ends.items ≡ 32 }
        ensures count { length self.new.counts.items ≡ length self.old.counts.items }
    {
        self.fits = pass(alloc, &mut self.passing, self.fits, member, it)?;
        self.greatest = self.greatest.max(it.lrsn.number());
        let place = member.number() as usize - 1;
        note_version(&mut self.olds, place, it);
        note_end(&mut self.ends, place, it);
        count_changes(&mut self.counts, it);
        Ok(())
    }
}
