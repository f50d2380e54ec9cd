//! Transactions that a restart has left open.

ghost use Rattle.std.specs.Prelude.{◌≡◌, ◌++◌, None, Some, Err, false, IfOk, OnOk, MatchOption};
ghost use Rattle.std.specs.List.{flat_map};
ghost use Rattle.member_marks.specs.Rollbacks.{may_adopt};
ghost use Rattle.group_member.specs.declared.fault.EventFault.TheVariants as faults;
ghost use Rattle.group_member.specs.Adopting.{row_of, change_in, changes_left, row_in, Adopts, AdoptsAll, MayNotAdopt};

use crate::fault::EventFault;
use crate::part::MemberPart;
use ds_base::{Lrsn, MemberId, NoMemory};
use ds_model::{Body, LogRecord, RowChange};
use member_marks::Change;
use member_resources::Policy;
use restart_marks::{Adopted, OpenTran};
use std::alloc::Global;

// The row change of a record.
fn row_of(body: &Body) -> Option<&RowChange>
    ensures { MatchOption result (row_of body.now ≡ None) (λ change. row_of body.now ≡ Some change.now) }
{
    match body {
        Body::RowChange { change } => Some(change),
        Body::Compensation { .. }
        | Body::System { .. }
        | Body::Commit
        | Body::Ended
        | Body::Checkpoint { .. }
        | Body::RestartEnd => None,
    }
}

fn copy_of(change: &RowChange) -> RowChange
    ensures { result ≡ change.now }
{
    let after = change.after;
    RowChange { after, ..*change }
}

fn change_of(lrsn: Lrsn, change: &RowChange) -> Change
    ensures { result ≡ record { lrsn = lrsn; change = change.now } }
{
    Change {
        lrsn,
        change: copy_of(change),
    }
}

fn put_change(changes: &mut Vec<Change>, it: &LogRecord) -> Result<(), NoMemory>
    ensures { OnOk result (changes.new.items ≡ changes.old.items ++ change_in it.now) }
{
    if let Some(change) = row_of(&it.body) {
        changes.push(change_of(it.lrsn, change))?;
    }
    Ok(())
}

// The row changes of these records, with their numbers.
fn changes_of(alloc: Global, records: &[LogRecord]) -> Result<Vec<Change>, NoMemory>
    ensures { IfOk result (λ changes. changes.items ≡ flat_map change_in records.now) }
{
    let mut changes = Vec::new(alloc);
    for it in records {
        put_change(&mut changes, it)?;
    }
    Ok(changes)
}

fn put_row(rows: &mut Vec<RowChange>, it: &LogRecord) -> Result<(), NoMemory>
    ensures { OnOk result (rows.new.items ≡ rows.old.items ++ row_in it.now) }
{
    if let Some(change) = row_of(&it.body) {
        rows.push(copy_of(change))?;
    }
    Ok(())
}

fn rows_of(alloc: Global, records: &[LogRecord]) -> Result<Vec<RowChange>, NoMemory>
    ensures { IfOk result (λ rows. rows.items ≡ flat_map row_in records.now) }
{
    let mut rows = Vec::new(alloc);
    for it in records {
        put_row(&mut rows, it)?;
    }
    Ok(rows)
}

// Takes over a transaction, which waits for the restart of this member.
fn adopt_one<P: Policy>(
    alloc: Global,
    part: &mut MemberPart<P>,
    tran: &OpenTran,
    by: MemberId,
) -> Result<(), EventFault>
    ensures adopts { OnOk result (Adopts part.old.resources by tran.now part.new.resources) }
    ensures unlawful { result ≡ Err faults.Unlawful → may_adopt part.old.resources.marks tran.now.id (changes_left tran.now) ≡ false }
    ensures rest { part.new ≡ record part.old { resources = part.new.resources; policy = part.new.policy } }
{
    let changes = changes_of(alloc, tran.undo.as_slice())?;
    let undone = rows_of(alloc, tran.undone.as_slice())?;
    if !part.resources.adopt(tran.id, by, changes, &undone)? {
        return Err(EventFault::Unlawful);
    }
    part.policy.adopt(tran.id)?;
    Ok(())
}

/// Takes over what a restart has left open, the latest transaction first.
pub fn adopt_all<P: Policy>(
    alloc: Global,
    part: &mut MemberPart<P>,
    left: &Adopted,
) -> Result<(), EventFault>
    ensures adopts { OnOk result (AdoptsAll part.old.resources left.now.by left.now.trans part.new.resources) }
    ensures unlawful { result ≡ Err faults.Unlawful → MayNotAdopt part.old.resources left.now.by left.now.trans }
    ensures rest { part.new ≡ record part.old { resources = part.new.resources; policy = part.new.policy } }
{
    let trans = left.trans.as_slice();
    for done in 0..trans.len() {
        adopt_one(alloc, part, &trans[trans.len() - 1 - done], left.by)?;
    }
    Ok(())
}
