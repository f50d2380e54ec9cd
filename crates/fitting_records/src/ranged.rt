//! Whether the records of all logs fit each other, as far as the numbers of a range tell.

ghost use Rattle.std.specs.Prelude.{◌≡◌, not, ◌&&◌, ◌||◌, None, OnOk};
ghost use Rattle.std.specs.FinMap as finite;
ghost use Rattle.fitting_records.specs.Fitting.{is_first, follows_on, with_tran};
ghost use Rattle.fitting_records.specs.Ranges.{is_in, nothing_in, is_new_in, is_home_in, fits_in, drawn_with, homes_with, trans_with, entered, tried_when, least_with, next_with, noted, range_with, left_behind, is_sooner, sooner};

use crate::standing::Standing;
use ds_base::{MemberId, NoMemory};
use ds_model::LogRecord;
use log_record::is_drawn;
use number_map::NumberMap;
use std::alloc::Global;

/// The numbers from one on up to another, which isn't among them.
#[derive(Clone, Copy, Debug)]
pub struct NumberRange {
    pub from: u128,
    pub to: u128,
}

/// Where a record begins.
#[derive(Clone, Copy, Debug, PartialEq, Eq)]
pub struct Place {
    pub member: MemberId,
    pub at: u64,
}

/// What the records so far say of the numbers of a range.
#[derive(Drop)]
pub struct RangeSeen {
    pub range: NumberRange,
    /// The numbers that were drawn.
    pub drawn: NumberMap<bool>,
    /// In whose log each transaction stands.
    pub homes: NumberMap<MemberId>,
    /// What the records of this log come to for each transaction.
    pub trans: NumberMap<Standing>,
    /// The first record that doesn't fit those before it.
    pub first: Option<Place>,
    /// The least number behind the range.
    pub next: Option<u128>,
}

impl NumberRange {
    fn has(self, number: u128) -> bool
        ensures { result ≡ is_in self number }
    {
        self.from <= number && number < self.to
    }
}

// Whether the record belongs to no transaction or has the number of its own.
fn is_first(it: &LogRecord) -> bool
    ensures { result ≡ is_first it.now }
{
    it.tran.number() == 0 || it.lrsn.number() == it.tran.number()
}

// Goes on with the record's transaction.
#[tactic(auto, using(number_map::proofs::Maps::put_back))]
fn enter_tran(
    alloc: Global,
    trans: &mut NumberMap<Standing>,
    it: &LogRecord,
) -> Result<(), NoMemory>
    ensures { OnOk result (trans.new ≡ with_tran trans.old it.now) }
{
    let mut standing = match trans.take(it.tran) {
        Some(standing) => standing,
        None => Standing::new(alloc),
    };
    standing.enter(alloc, it)?;
    trans.put(it.tran, standing)
}

fn enter_drawn(
    drawn: &mut NumberMap<bool>,
    range: NumberRange,
    it: &LogRecord,
) -> Result<(), NoMemory>
    ensures { OnOk result (drawn.new ≡ drawn_with range drawn.old it.now) }
{
    if is_drawn(&it.body) && range.has(it.lrsn.number()) {
        drawn.put(it.lrsn, true)?;
    }
    Ok(())
}

fn enter_home(
    homes: &mut NumberMap<MemberId>,
    range: NumberRange,
    member: MemberId,
    it: &LogRecord,
) -> Result<(), NoMemory>
    ensures { OnOk result (homes.new ≡ homes_with range homes.old member it.now) }
{
    if range.has(it.tran.number()) {
        homes.put(it.tran, member)?;
    }
    Ok(())
}

fn enter_standing(
    alloc: Global,
    trans: &mut NumberMap<Standing>,
    range: NumberRange,
    it: &LogRecord,
) -> Result<(), NoMemory>
    ensures { OnOk result (trans.new ≡ trans_with range trans.old it.now) }
{
    if range.has(it.tran.number()) {
        enter_tran(alloc, trans, it)?;
    }
    Ok(())
}

fn least_with(next: Option<u128>, number: u128) -> Option<u128>
    ensures { result ≡ least_with next number }
{
    match next {
        None => Some(number),
        Some(least) => {
            if number < least {
                Some(number)
            } else {
                Some(least)
            }
        }
    }
}

fn next_with(to: u128, next: Option<u128>, number: u128) -> Option<u128>
    ensures { result ≡ next_with to next number }
{
    if number < to {
        next
    } else {
        least_with(next, number)
    }
}

impl RangeSeen {
    pub fn new(alloc: Global, range: NumberRange) -> RangeSeen
        ensures { result ≡ nothing_in range }
    {
        RangeSeen {
            range,
            drawn: NumberMap::new(alloc),
            homes: NumberMap::new(alloc),
            trans: NumberMap::new(alloc),
            first: None,
            next: None,
        }
    }

    fn is_new(&self, it: &LogRecord) -> bool
        ensures { result ≡ is_new_in self.now it.now }
    {
        !is_drawn(&it.body) || (it.lrsn.number() != 0 && self.drawn.get(it.lrsn).is_none())
    }

    fn is_home(&self, member: MemberId, it: &LogRecord) -> bool
        ensures { result ≡ is_home_in self.now member it.now }
    {
        if it.tran.number() == 0 {
            return true;
        }
        match self.homes.get(it.tran) {
            None => true,
            Some(home) => home.number() == member.number(),
        }
    }

    fn follows(&self, alloc: Global, it: &LogRecord) -> bool
        ensures { result ≡ follows_on (finite.get self.now.trans it.now.tran) it.now }
    {
        match self.trans.get(it.tran) {
            None => is_first(it) && Standing::new(alloc).may_take(&it.body),
            Some(standing) => standing.may_take(&it.body),
        }
    }

    fn fits_number(&self, it: &LogRecord) -> bool
        ensures { result ≡ (not (is_in self.now.range it.now.lrsn) || is_new_in self.now it.now) }
    {
        !self.range.has(it.lrsn.number()) || self.is_new(it)
    }

    fn fits_tran(&self, alloc: Global, member: MemberId, it: &LogRecord) -> bool
        ensures { result ≡ (not (is_in self.now.range it.now.tran) || (is_home_in self.now member it.now && follows_on (finite.get self.now.trans it.now.tran) it.now)) }
    {
        !self.range.has(it.tran.number()) || (self.is_home(member, it) && self.follows(alloc, it))
    }

    fn fits(&self, alloc: Global, member: MemberId, it: &LogRecord) -> bool
        ensures { result ≡ fits_in self.now member it.now }
    {
        self.fits_number(it) && self.fits_tran(alloc, member, it)
    }

    fn enter(&mut self, alloc: Global, member: MemberId, it: &LogRecord) -> Result<(), NoMemory>
        ensures { OnOk result (self.new ≡ entered self.old member it.now) }
    {
        enter_drawn(&mut self.drawn, self.range, it)?;
        enter_home(&mut self.homes, self.range, member, it)?;
        enter_standing(alloc, &mut self.trans, self.range, it)
    }

    // Where none was found that doesn't fit.
    fn try_record(
        &mut self,
        alloc: Global,
        member: MemberId,
        at: u64,
        it: &LogRecord,
    ) -> Result<(), NoMemory>
        ensures { OnOk result (self.new ≡ tried_when None self.old member at it.now) }
    {
        if self.fits(alloc, member, it) {
            return self.enter(alloc, member, it);
        }
        self.first = Some(Place { member, at });
        Ok(())
    }

    fn try_next(
        &mut self,
        alloc: Global,
        member: MemberId,
        at: u64,
        it: &LogRecord,
    ) -> Result<(), NoMemory>
        ensures { OnOk result (self.new ≡ tried_when self.old.first self.old member at it.now) }
    {
        match self.first {
            Some(_) => Ok(()),
            None => self.try_record(alloc, member, at, it),
        }
    }

    fn note(&mut self, it: &LogRecord)
        ensures { self.new ≡ noted self.old it.now }
    {
        let next = next_with(self.range.to, self.next, it.lrsn.number());
        self.next = next_with(self.range.to, next, it.tran.number());
    }

    /// Takes the next record of the member's log, which begins at this byte.
    pub fn take(
        &mut self,
        alloc: Global,
        member: MemberId,
        at: u64,
        it: &LogRecord,
    ) -> Result<(), NoMemory>
        ensures { OnOk result (self.new ≡ range_with self.old member at it.now) }
    {
        self.try_next(alloc, member, at, it)?;
        self.note(it);
        Ok(())
    }

    /// Ends the log.
    pub fn leave(&mut self, alloc: Global)
        ensures { self.new ≡ left_behind self.old }
    {
        self.trans = NumberMap::new(alloc);
    }
}

fn is_sooner(a: &Place, b: &Place) -> bool
    ensures { result ≡ is_sooner a.now b.now }
{
    a.member.number() < b.member.number() || (a.member.number() == b.member.number() && a.at < b.at)
}

/// The sooner of two places, by the order of the logs, and in each by the order of its records.
pub fn sooner(a: Option<Place>, b: Option<Place>) -> Option<Place>
    ensures { result ≡ sooner a b }
{
    match (&a, &b) {
        (None, _) => b,
        (Some(_), None) => a,
        (Some(first), Some(second)) => { if is_sooner(second, first) { b } else { a } }
    }
}
