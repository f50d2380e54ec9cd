ghost use Rattle.std.specs.Prelude.{◌≡◌, [], ◌∷◌, ◌++◌, length, IfOk, OnOk};
ghost use Rattle.ds_model.specs.RecordBytes.{IsAllowed};
ghost use Rattle.redone_pages.specs.Ranges.{has_page};
ghost use Rattle.heap_rows.specs.Left.{AreLeft};
ghost use Rattle.stood_rows.specs.Found.{IsTold, AreFound, IsStanding};

use crate::parts::{find_in_change, find_in_patches};
use crate::unstood::Unstood;
use ds_base::NoMemory;
use heap_rows::LeftRows;
use log_record::{Body, LogRecord};
use redone_pages::{RedonePages, TableRange};
use std::alloc::Global;

/// Whether each record so far met its row, or left each slot to its key, as far as the pages of some tables go.
#[derive(Debug, Drop)]
pub struct Standing {
    pub rows: LeftRows,
    /// How many records were taken.
    pub taken: u64,
    /// The first change that didn't.
    pub first: Option<Unstood>,
}

// The first change of the record, at this place, that doesn't stand.
fn find(
    alloc: Global,
    made: &RedonePages,
    rows: &LeftRows,
    at: u64,
    it: &LogRecord,
) -> Result<Option<Unstood>, NoMemory>
    requires allowed { IsAllowed it.now }
    requires range { made.now.range ≡ rows.now.range }
    ensures { IfOk result (λ found. AreLeft made.now.records rows.now → IsTold (has_page made.now.range) made.now.records at it.now.lrsn it.now.body found) }
{
    match &it.body {
        Body::RowChange { change } | Body::Compensation { change, .. } => {
            find_in_change(alloc, made, rows, at, change)
        }
        Body::System { patches } => {
            find_in_patches(alloc, made, at, patches.as_slice(), it.lrsn)
        }
        Body::Commit | Body::Ended | Body::Checkpoint { .. } | Body::RestartEnd => Ok(None),
    }
}

fn next_first(
    alloc: Global,
    made: &RedonePages,
    it: &Standing,
    next: &LogRecord,
) -> Result<Option<Unstood>, NoMemory>
    requires allowed { IsAllowed next.now }
    requires range { made.now.range ≡ it.now.rows.range }
    ensures { IfOk result (λ found. IsStanding made.now.records it.now → AreFound (has_page it.now.rows.range) (made.now.records ++ next.now ∷ []) found) }
{
    match it.first {
        Some(_) => Ok(it.first),
        None => find(alloc, made, &it.rows, it.taken, next),
    }
}

impl Standing {
    /// Before the first record.
    pub fn new(alloc: Global, range: TableRange) -> Standing
        ensures range { result.rows.range ≡ range }
        ensures found { IsStanding [] result }
    {
        Standing {
            rows: LeftRows::new(alloc, range),
            taken: 0,
            first: None,
        }
    }

    /// Takes the next record. The pages are as those before it leave them.
    ///
    /// It takes time in the number of its changes times the logarithm of the numbers of pages and of rows, and in the square of the
    /// number of its patches for one page.
    pub fn take(
        &mut self,
        alloc: Global,
        made: &RedonePages,
        it: &LogRecord,
    ) -> Result<(), NoMemory>
        requires allowed { IsAllowed it.now }
        requires range { made.now.range ≡ self.old.rows.range }
        ensures range { self.new.rows.range ≡ self.old.rows.range }
        ensures found { OnOk result (IsStanding made.now.records self.old → IsStanding (made.now.records ++ it.now ∷ []) self.new) }
    {
        let first = next_first(alloc, made, self, it)?;
        let taken = self.taken.checked_add(1).ok_or(NoMemory)?;
        self.rows.take(it)?;
        self.taken = taken;
        self.first = first;
        Ok(())
    }
}
