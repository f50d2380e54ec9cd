//! Whether the records of all logs fit each other, taken in the order of their numbers, by what is open alone.

ghost use Rattle.std.specs.Prelude.{◌≡◌, OnOk};
ghost use Rattle.std.specs.FinMap as finite;
ghost use Rattle.fitting_records.specs.Passings.{nothing_passed, is_apart, closes, rises, begins, goes_on, may_pass, gone_on, trans_with, passed};

use crate::standing::Standing;
use ds_base::{MemberId, NoMemory};
use ds_model::{Body, LogRecord};
use log_record::is_drawn;
use number_map::NumberMap;
use std::alloc::Global;

/// A transaction that isn't over.
#[derive(Drop)]
pub struct OpenTran {
    /// Whose log it stands in.
    pub home: MemberId,
    /// What its records come to.
    pub standing: Standing,
}

/// What the records so far leave.
#[derive(Drop)]
pub struct Passing {
    /// The last number that was drawn, 0 before the first.
    pub last: u128,
    /// The greatest number.
    pub greatest: u128,
    /// The transactions that aren't over.
    pub trans: NumberMap<OpenTran>,
}

// Whether a record with this body may belong to no transaction.
fn is_apart(body: &Body) -> bool
    ensures { result ≡ is_apart body.now }
{
    match body {
        Body::System { .. } | Body::Checkpoint { .. } | Body::RestartEnd => true,
        Body::RowChange { .. } | Body::Compensation { .. } | Body::Commit | Body::Ended => false,
    }
}

// Whether a transaction is over behind a record with this body.
fn closes(body: &Body) -> bool
    ensures { result ≡ closes body.now }
{
    match body {
        Body::Commit | Body::Ended => true,
        Body::RowChange { .. }
        | Body::Compensation { .. }
        | Body::System { .. }
        | Body::Checkpoint { .. }
        | Body::RestartEnd => false,
    }
}

// Whether the record may be the first of its transaction.
fn begins(alloc: Global, it: &LogRecord) -> bool
    ensures { result ≡ begins it.now }
{
    is_drawn(&it.body)
        && it.lrsn.number() == it.tran.number()
        && Standing::new(alloc).may_take(&it.body)
}

// Goes on with a transaction that isn't over behind the record.
#[tactic(auto, using(number_map::proofs::Maps::put_back))]
fn go_on(
    alloc: Global,
    trans: &mut NumberMap<OpenTran>,
    home: MemberId,
    it: &LogRecord,
) -> Result<(), NoMemory>
    ensures { OnOk result (trans.new ≡ finite.insert trans.old it.now.tran (gone_on (finite.get trans.old it.now.tran) home it.now)) }
{
    let mut standing = match trans.take(it.tran) {
        Some(open) => open.standing,
        None => Standing::new(alloc),
    };
    standing.enter(alloc, it)?;
    trans.put(it.tran, OpenTran { home, standing })
}

fn enter_tran(
    alloc: Global,
    trans: &mut NumberMap<OpenTran>,
    home: MemberId,
    it: &LogRecord,
) -> Result<(), NoMemory>
    ensures { OnOk result (trans.new ≡ trans_with trans.old home it.now) }
{
    if closes(&it.body) {
        trans.take(it.tran);
        Ok(())
    } else {
        go_on(alloc, trans, home, it)
    }
}

impl Passing {
    pub fn new(alloc: Global) -> Passing
        ensures { result ≡ nothing_passed }
    {
        Passing {
            last: 0,
            greatest: 0,
            trans: NumberMap::new(alloc),
        }
    }

    fn rises(&self, it: &LogRecord) -> bool
        ensures { result ≡ rises self.now it.now }
    {
        !is_drawn(&it.body) || self.last < it.lrsn.number()
    }

    fn goes_on(&self, alloc: Global, member: MemberId, it: &LogRecord) -> bool
        ensures { result ≡ goes_on (finite.get self.now.trans it.now.tran) member it.now }
    {
        match self.trans.get(it.tran) {
            None => begins(alloc, it),
            Some(open) => {
                open.home.number() == member.number() && open.standing.may_take(&it.body)
            }
        }
    }

    /// Whether the record of the member's log is known to fit those before it: the numbers that are drawn rise, and its
    /// transaction is open in this log, or begins with it. One that would be written behind the last of its transaction isn't
    /// known to.
    pub fn may_pass(&self, alloc: Global, member: MemberId, it: &LogRecord) -> bool
        ensures { result ≡ may_pass self.now member it.now }
    {
        if !self.rises(it) {
            return false;
        }
        if it.tran.number() == 0 {
            is_apart(&it.body)
        } else {
            self.goes_on(alloc, member, it)
        }
    }

    /// Takes the next record into account.
    pub fn pass(&mut self, alloc: Global, member: MemberId, it: &LogRecord) -> Result<(), NoMemory>
        ensures { OnOk result (self.new ≡ passed self.old member it.now) }
    {
        let number = it.lrsn.number();
        if is_drawn(&it.body) {
            self.last = number;
        }
        if self.greatest < number {
            self.greatest = number;
        }
        if it.tran.number() == 0 {
            return Ok(());
        }
        enter_tran(alloc, &mut self.trans, member, it)
    }
}
