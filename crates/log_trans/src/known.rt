ghost use Rattle.std.specs.Prelude.{◌≡◌, ◌≤◌, OnOk, IfSome, option_copied};
ghost use Rattle.ds_model.specs.RecordBytes.{BodyFits};
ghost use Rattle.log_trans.specs.Damage.{tran_at, undone_at, unless, body_fault, is_home, tran_fault, was_drawn, record_fault, nothing_known, known_with};

use crate::course::{Course, is_next};
use crate::opened::enter_record;
use ds_base::{Lrsn, MemberId, NoMemory};
use ds_model::{Body, LogRecord};
use log_record::{is_drawn, record_length, width_of};
use number_map::NumberMap;
use std::alloc::Global;

// Where the number of a record begins.
const NUMBER_AT: u64 = 6;

/// What the records so far say: whose each number is that was drawn, in whose log each transaction stands, and what its
/// records come to.
#[derive(Drop)]
pub struct Known {
    pub drawn: NumberMap<MemberId>,
    pub homes: NumberMap<MemberId>,
    pub courses: NumberMap<Course>,
}

// Where the transaction of a record begins.
fn tran_at(it: &LogRecord) -> u64
    ensures exact { result ≡ tran_at it.now }
    ensures small { result ≤ 16 }
{
    NUMBER_AT + width_of(it.version) as u64
}

// Where the undone number of a compensation begins.
fn undone_at(it: &LogRecord) -> u64
    requires fits { BodyFits it.now.version it.now.body }
    ensures exact { result ≡ undone_at it.now }
    ensures small { result ≤ 16384 }
{
    let length = record_length(it) as u64;
    length.saturating_sub(width_of(it.version) as u64 + 4)
}

fn unless(may_stand: bool, at: u64) -> Option<u64>
    ensures { result ≡ unless may_stand at }
{
    if may_stand { None } else { Some(at) }
}

// Where a record that belongs to a transaction can't follow on those of the transaction before it.
fn body_fault(course: &Course, it: &LogRecord) -> Option<u64>
    requires fits { BodyFits it.now.version it.now.body }
    ensures exact { result ≡ body_fault course.now it.now it.now.body }
    ensures small { IfSome result (λ at. at ≤ 16384) }
{
    let nothing_undone = course.undone.is_empty();
    match &it.body {
        Body::RowChange { .. } => unless(nothing_undone, tran_at(it)),
        Body::Compensation { undone, .. } => {
            if course.is_committed {
                return Some(tran_at(it));
            }
            unless(is_next(*undone, course.undo.as_slice()), undone_at(it))
        }
        Body::Commit => unless(!course.is_committed && nothing_undone, tran_at(it)),
        Body::Ended => {
            let is_undone = course.undo.is_empty() && !nothing_undone;
            unless(course.is_committed || is_undone, tran_at(it))
        }
        Body::System { .. } | Body::Checkpoint { .. } | Body::RestartEnd => None,
    }
}

fn is_home(member: MemberId, home: Option<&MemberId>) -> bool
    ensures { result ≡ is_home member (option_copied home.entry) }
{
    match home {
        None => true,
        Some(home) => home.number() == member.number(),
    }
}

impl Known {
    pub fn new(alloc: Global) -> Known
        ensures { result ≡ nothing_known }
    {
        Known {
            drawn: NumberMap::new(alloc),
            homes: NumberMap::new(alloc),
            courses: NumberMap::new(alloc),
        }
    }

    fn was_drawn(&self, it: &LogRecord) -> bool
        ensures { result ≡ was_drawn self.now it.now }
    {
        is_drawn(&it.body) && self.drawn.get(it.lrsn).is_some()
    }

    fn tran_fault(&self, alloc: Global, member: MemberId, it: &LogRecord) -> Option<u64>
        requires fits { BodyFits it.now.version it.now.body }
        ensures exact { result ≡ tran_fault member self.now it.now }
        ensures small { IfSome result (λ at. at ≤ 16384) }
    {
        if it.tran.number() == 0 {
            return None;
        }
        if !is_home(member, self.homes.get(it.tran)) {
            return Some(tran_at(it));
        }
        match self.courses.get(it.tran) {
            Some(course) => body_fault(course, it),
            None => body_fault(&Course::new(alloc), it),
        }
    }

    /// Where the first number of a record of the member's log can't stand, behind a record with the number `low`.
    pub fn fault(&self, alloc: Global, member: MemberId, low: u128, it: &LogRecord) -> Option<u64>
        requires fits { BodyFits it.now.version it.now.body }
        ensures exact { result ≡ record_fault member self.now low it.now }
        ensures small { IfSome result (λ at. at ≤ 16384) }
    {
        if it.lrsn.number() < low || self.was_drawn(it) {
            return Some(NUMBER_AT);
        }
        self.tran_fault(alloc, member, it)
    }

    /// Takes a record of the member's log into account.
    pub fn enter(&mut self, alloc: Global, member: MemberId, it: &LogRecord) -> Result<(), NoMemory>
        ensures { OnOk result (self.new ≡ known_with member self.old it.now) }
    {
        if is_drawn(&it.body) {
            self.drawn.put(it.lrsn, member)?;
        }
        if it.tran.number() != 0 {
            self.homes.put(it.tran, member)?;
        }
        enter_record(alloc, &mut self.courses, it)
    }
}
