//! What is taken of the records of a log that are read one after the other.

ghost use Rattle.std.specs.Prelude.{◌≡◌, ◌+◌, ◌||◌, ◌&&◌, ◌∷◌, ◌++◌, [], ℕ, Bool, cond, OnOk, IfOk};
ghost use Rattle.std.specs.BTreeSet as set;
ghost use Rattle.std.specs.Ordering.{nat_cmp};
ghost use Rattle.ds_model.specs.Logs.{has_commit};
ghost use Rattle.opening_rows.specs.Kept.{keeps_of, HasTaken, Adds};

use crate::keeps::Keeps;
use ds_base::NoMemory;
use ds_model::{Body, LogRecord};
use std::alloc::Global;
use std::collections::BTreeSet;

/// What was taken of the records of a log that were read so far.
#[derive(Drop)]
pub struct Taken {
    /// How many records were read.
    pub count: usize,
    /// The records that are kept, in the order of the log.
    pub records: Vec<LogRecord>,
    /// How many of these the log had at the opening.
    pub before: usize,
    /// The transactions of the Commit records that it has got since.
    pub commits: BTreeSet<u128>,
}

/// Nothing was read yet.
pub fn nothing(alloc: Global) -> Taken
    ensures { (keeps : ℕ → Bool) (had : ℕ) → HasTaken keeps had [] result }
{
    Taken {
        count: 0,
        records: Vec::new(alloc),
        before: 0,
        commits: BTreeSet::new(alloc),
    }
}

// Adds the transaction of a Commit record that is new.
fn note_commit(commits: &mut BTreeSet<u128>, it: &LogRecord, is_new: bool) -> Result<(), NoMemory>
    ensures { OnOk result ((tran : ℕ) → set.contains nat_cmp commits.new tran ≡ (set.contains nat_cmp commits.old tran || (is_new && has_commit (it.now ∷ []) tran))) }
{
    match it.body {
        Body::Commit if is_new => {
            commits.insert(it.tran.number())?;
            Ok(())
        }
        _ => Ok(()),
    }
}

// Keeps a record that is new, or isn't.
fn keep(
    records: &mut Vec<LogRecord>,
    before: &mut usize,
    it: LogRecord,
    is_new: bool,
) -> Result<(), NoMemory>
    ensures records { OnOk result (records.new.items ≡ records.old.items ++ it ∷ []) }
    ensures before { OnOk result (before.new ≡ before.old + cond is_new 0 1) }
{
    if !is_new {
        *before = before.checked_add(1).ok_or(NoMemory)?;
    }
    records.push(it)?;
    Ok(())
}

/// Takes the next record of a log that had so many records at the opening. It is kept if its transaction is one of these.
pub fn take(taken: &mut Taken, keeps: &Keeps, had: usize, it: LogRecord) -> Result<(), NoMemory>
    ensures { OnOk result (Adds (keeps_of keeps.now) had taken.old taken.new it) }
{
    let is_new = had <= taken.count;
    note_commit(&mut taken.commits, &it, is_new)?;
    taken.count = taken.count.checked_add(1).ok_or(NoMemory)?;
    if keeps.has(it.tran.number()) {
        keep(&mut taken.records, &mut taken.before, it, is_new)?;
    }
    Ok(())
}
