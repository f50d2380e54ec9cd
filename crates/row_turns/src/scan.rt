ghost use Rattle.std.specs.Prelude.{◌≡◌, [], ◌∷◌, ◌++◌, List, IfOk, OnOk};
ghost use Rattle.ds_model.specs.declared.log.LogRecord.{LogRecord};
ghost use Rattle.redone_pages.specs.Ranges.{has_table};
ghost use Rattle.row_turns.specs.Steps.{next_out, next_held};
ghost use Rattle.row_turns.specs.Orders.{AreOrderly};
ghost use Rattle.row_turns.specs.Scans.{AreTurnsTold, IsTurning};

use crate::held::Held;
use crate::told::{OutOfTurn, Told};
use ds_base::NoMemory;
use ds_model::LogRecord;
use redone_pages::TableRange;
use std::alloc::Global;

/// Whether the rows of the tables of a range are changed in turn by the records so far, and what of these changes is open.
///
/// It holds a little of each row, and of each transaction with an open change of one. Only where a transaction may change rows
/// behind its Commit are the numbers of those that have committed held, too.
#[derive(Drop)]
pub struct Turns {
    pub range: TableRange,
    /// Whether it is said that no transaction changes a row behind its Commit.
    pub is_early: bool,
    pub held: Held,
    /// How many records were taken.
    pub taken: u64,
    /// The first change that is out of turn. No more is held from there on.
    pub out: Option<OutOfTurn>,
}

impl Turns {
    /// Before the first record.
    pub fn new(alloc: Global, range: TableRange, is_early: bool) -> Turns
        ensures range { result.range ≡ range }
        ensures early { result.is_early ≡ is_early }
        ensures turning { IsTurning [] result }
    {
        Turns {
            range,
            is_early,
            held: Held::new(alloc),
            taken: 0,
            out: None,
        }
    }

    // Goes on with the record, where none was out of turn before it.
    fn step(&mut self, it: &LogRecord) -> Result<(), NoMemory>
        ensures range { self.new.range ≡ self.old.range }
        ensures early { self.new.is_early ≡ self.old.is_early }
        ensures taken { self.new.taken ≡ self.old.taken }
        ensures out { OnOk result (self.new.out ≡ next_out (has_table self.old.range) self.old it.now) }
        ensures held { OnOk result (self.new.held ≡ next_held (has_table self.old.range) self.old it.now) }
    {
        if self.out.is_some() {
            return Ok(());
        }
        if self.held.lets(self.range, it) {
            self.held.turn(self.range, self.is_early, it)
        } else {
            self.out = Some(OutOfTurn {
                index: self.taken,
                number: it.lrsn,
            });
            Ok(())
        }
    }

    /// Takes the next record.
    ///
    /// It takes time in the logarithm of the number of rows and of open transactions.
    pub fn take(&mut self, it: &LogRecord) -> Result<(), NoMemory>
        ensures range { self.new.range ≡ self.old.range }
        ensures early { self.new.is_early ≡ self.old.is_early }
        ensures turning { OnOk result ((records : List LogRecord) → IsTurning records self.old → IsTurning (records ++ it.now ∷ []) self.new) }
    {
        let taken = self.taken.checked_add(1).ok_or(NoMemory)?;
        self.step(it)?;
        self.taken = taken;
        Ok(())
    }

    /// What is told of the rows behind the records that were taken.
    ///
    /// It takes time in the number of rows times its logarithm.
    pub fn told(&self, alloc: Global) -> Result<Told, NoMemory>
        ensures { IfOk result (λ told. (records : List LogRecord) → IsTurning records self.now → AreOrderly self.now.is_early [] records → AreTurnsTold (has_table self.now.range) records told) }
    {
        let rows = self.held.count_left(alloc)?;
        Ok(Told {
            out: self.out,
            open: self.held.unsettled,
            rows,
        })
    }
}
