ghost use Rattle.std.specs.Prelude.{◌≡◌, true, OnOk, IfOk};
ghost use Rattle.std.specs.FinMap as finite;
ghost use Rattle.restart_plan.specs.Opened.{with_change, with_changes, with_tran, with_trans, with_log, with_logs, nothing_open, is_restart_end, is_end};

use crate::queue::Queue;
use crate::tran::TranNumber;
use ds_base::{Lrsn, MemberId, NoMemory, Sequence};
use ds_model::{Body, LogRecord, RowChange, Version};
use log_record::Log;
use log_trans::{OpenTran, open_trans};
use number_map::NumberMap;
use std::alloc::Global;

/// An open transaction of which nothing is to be undone. Its Ended record repeats this number.
#[derive(Clone, Copy, Debug, PartialEq, Eq)]
pub struct Closing {
    pub member: MemberId,
    pub tran: TranNumber,
    pub lrsn: Lrsn,
}

/// A row change of an open transaction, which is to be undone.
#[derive(Debug, Drop)]
pub struct Undo {
    pub member: MemberId,
    pub tran: TranNumber,
    /// The number of the change's record.
    pub lrsn: Lrsn,
    pub change: RowChange,
    /// Whether none of the transaction is left to be undone behind it.
    pub is_last: bool,
}

/// What the open transactions of logs ask for: Ended records, the changes that are undone, by their numbers, and the logs
/// that are to end with a Checkpoint and a RestartEnd.
#[derive(Drop)]
pub struct Opened {
    pub closings: Queue<Closing>,
    pub undo: NumberMap<Undo>,
    pub endings: Queue<MemberId>,
}

fn is_restart_end(body: &Body) -> bool
    ensures { result ≡ is_restart_end body.now }
{
    matches!(body, Body::RestartEnd)
}

/// Whether a restart has ended with the record, and its version is that in which records are written.
pub fn is_end(it: &LogRecord) -> bool
    ensures { result ≡ is_end it.now }
{
    matches!(it.version, Version::Two) && is_restart_end(&it.body)
}

impl Opened {
    fn new(alloc: Global) -> Opened
        ensures { result ≡ nothing_open }
    {
        Opened {
            closings: Queue::new(alloc),
            undo: NumberMap::new(alloc),
            endings: Queue::new(alloc),
        }
    }
}

// What is undone is a row change.
fn add_change(
    changes: &mut NumberMap<Undo>,
    member: MemberId,
    tran: TranNumber,
    is_last: bool,
    it: &LogRecord,
) -> Result<(), NoMemory>
    ensures { OnOk result (changes.new ≡ with_change member tran is_last changes.old it.now.lrsn it.now.body) }
{
    match &it.body {
        Body::RowChange { change } => {
            let after = change.after;
            changes.put(
                it.lrsn,
                Undo {
                    member,
                    tran,
                    lrsn: it.lrsn,
                    change: RowChange { after, ..*change },
                    is_last,
                },
            )
        }
        Body::Compensation { .. }
        | Body::System { .. }
        | Body::Commit
        | Body::Ended
        | Body::Checkpoint { .. }
        | Body::RestartEnd => Ok(()),
    }
}

// They are undone from the last to the first.
fn add_changes(
    changes: &mut NumberMap<Undo>,
    member: MemberId,
    tran: TranNumber,
    records: &[LogRecord],
) -> Result<(), NoMemory>
    ensures { OnOk result (changes.new ≡ with_changes member tran true changes.old records.now) }
{
    let mut is_last = true;
    for record in records {
        add_change(changes, member, tran, is_last, record)?;
        is_last = false;
    }
    Ok(())
}

// No transaction has the number 0.
fn add_tran(
    opened: &mut Opened,
    member: MemberId,
    lrsn: Lrsn,
    it: &OpenTran,
) -> Result<(), NoMemory>
    ensures { OnOk result (opened.new ≡ with_tran member lrsn opened.old it.now) }
{
    let Some(tran) = TranNumber::new(it.id) else {
        return Ok(());
    };
    if it.undo.is_empty() {
        return opened.closings.push(Closing { member, tran, lrsn });
    }
    add_changes(&mut opened.undo, member, tran, it.undo.as_slice())
}

fn add_trans(
    opened: &mut Opened,
    member: MemberId,
    lrsn: Lrsn,
    trans: &[OpenTran],
) -> Result<(), NoMemory>
    ensures { OnOk result (opened.new ≡ with_trans member lrsn opened.old trans.now) }
{
    for tran in trans {
        add_tran(opened, member, lrsn, tran)?;
    }
    Ok(())
}

fn add_log(alloc: Global, opened: &mut Opened, log: &Log) -> Result<(), NoMemory>
    ensures { OnOk result (opened.new ≡ with_log opened.old log.now) }
{
    let Some(last) = log.records().last() else {
        return Ok(());
    };
    let trans = open_trans(alloc, log)?;
    if !is_end(last) || !trans.is_empty() {
        opened.endings.push(log.member)?;
    }
    add_trans(opened, log.member, last.lrsn, trans.as_slice())
}

pub fn opened_of(alloc: Global, logs: &[Log]) -> Result<Opened, NoMemory>
    ensures { IfOk result (λ opened. opened ≡ with_logs nothing_open logs.now) }
{
    let mut opened = Opened::new(alloc);
    for log in logs {
        add_log(alloc, &mut opened, log)?;
    }
    Ok(opened)
}
