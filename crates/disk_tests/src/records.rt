ghost use Rattle.std.specs.Prelude.{IfOk};
ghost use Rattle.std.specs.List.{AllByRecursion};
ghost use Rattle.ds_model.specs.RecordBytes.{IsAllowed};

use disk_spots::Spot;
use ds_base::{Lrsn, MemberId, Place, Sequence, TableId};
use ds_model::{Body, LogRecord, RowChange, Version};
use log_record::{Log, is_allowed};
use std::alloc::Global;
use std::test::Fail;

/// What a record tells.
#[derive(Clone, Copy)]
pub enum Told {
    /// A row of table 1 was changed, and is absent before and after.
    Change { key: u64, page: u32 },
    Commit,
}

impl Told {
    fn body(self) -> Body {
        match self {
            Told::Change { key, page } => Body::RowChange {
                change: RowChange {
                    table: TableId::new(1).unwrap(),
                    key,
                    place: Place { page, slot: 0 },
                    before: None,
                    after: None,
                },
            },
            Told::Commit => Body::Commit,
        }
    }
}

/// A record that may stand in a log, with its number and its transaction's.
pub fn record(lrsn: u128, tran: u128, body: Body) -> Result<LogRecord, Fail>
    ensures { IfOk result IsAllowed }
{
    let lrsn = Lrsn::new(lrsn).ok_or("a number")?;
    let tran = Lrsn::new(tran).ok_or("a number")?;
    let record = LogRecord {
        version: Version::Two,
        lrsn,
        tran,
        body,
    };
    if !is_allowed(&record) {
        return Err(Fail::from("a record of a log"));
    }
    Ok(record)
}

/// A byte of the second member's log.
pub fn second_log(at: u64) -> Spot {
    Spot::Log {
        member: MemberId::new(2).unwrap(),
        at,
    }
}

/// A log of records with these numbers and transactions.
#[tactic(auto, using(crate::proofs::Allowed::one_more))]
pub fn log(alloc: Global, member: u64, told: &[(u128, u128, Told)]) -> Result<Log, Fail>
    ensures { IfOk result (λ log. AllByRecursion IsAllowed log.records) }
{
    let member = MemberId::new(member).ok_or("a member")?;
    let mut records = Sequence::new(alloc);
    for (lrsn, tran, told) in told {
        records.push(record(*lrsn, *tran, told.body())?)?;
    }
    Ok(Log {
        member,
        records,
        length: 0,
        tail: 0,
    })
}
