ghost use Rattle.std.specs.Prelude.{◌≡◌, ◌+◌, Some, IfOk};
ghost use Rattle.row_turns.specs.States.{left_by, left_in, may_change, changed_by, taken_by, is_waiting};

use ds_base::{Lrsn, NoMemory};
use number_map::NumberMap;

/// What is held of a row that records have changed.
#[derive(Clone, Copy, Debug, PartialEq, Eq)]
pub struct RowTurn {
    /// The transaction that changed the row last.
    pub tran: Lrsn,
    /// How many of its changes of the row aren't taken back.
    pub untaken: u64,
    /// Whether the last change left a row.
    pub is_there: bool,
    /// Whether the committed changes leave one, as long as its transaction hasn't committed.
    pub was_there: bool,
}

fn is_waiting(waiting: &NumberMap<u64>, tran: Lrsn) -> bool
    ensures { result ≡ is_waiting waiting.now tran }
{
    waiting.get(tran).is_some()
}

fn left_by(waiting: &NumberMap<u64>, row: &RowTurn) -> bool
    ensures { result ≡ left_by waiting.now row.now }
{
    let waits = is_waiting(waiting, row.tran);
    if 0 < row.untaken && !waits {
        row.is_there
    } else {
        row.was_there
    }
}

/// Whether the committed changes leave a row.
pub fn left_in(waiting: &NumberMap<u64>, row: &Option<RowTurn>) -> bool
    ensures { result ≡ left_in waiting.now row.now }
{
    match row {
        None => false,
        Some(row) => left_by(waiting, row),
    }
}

fn may_change_row(waiting: &NumberMap<u64>, row: &RowTurn, tran: Lrsn) -> bool
    ensures { result ≡ may_change waiting.now (Some row.now) tran }
{
    let waits = is_waiting(waiting, row.tran);
    row.tran.number() == tran.number() || row.untaken == 0 || !waits
}

/// Whether the transaction may change the row: it changed it last, or the changes of the transaction that did are settled.
pub fn may_change(waiting: &NumberMap<u64>, row: &Option<RowTurn>, tran: Lrsn) -> bool
    ensures { result ≡ may_change waiting.now row.now tran }
{
    match row {
        None => true,
        Some(row) => may_change_row(waiting, row, tran),
    }
}

fn changed_again(row: &RowTurn, tran: Lrsn, is_there: bool) -> Result<RowTurn, NoMemory>
    ensures { IfOk result (λ next. next ≡ record { tran = tran; untaken = row.now.untaken + 1; is_there = is_there; was_there = row.now.was_there }) }
{
    let untaken = row.untaken.checked_add(1).ok_or(NoMemory)?;
    Ok(RowTurn {
        tran,
        untaken,
        is_there,
        was_there: row.was_there,
    })
}

fn changed_row(
    waiting: &NumberMap<u64>,
    row: &RowTurn,
    tran: Lrsn,
    is_there: bool,
) -> Result<RowTurn, NoMemory>
    ensures { IfOk result (λ next. next ≡ changed_by waiting.now (Some row.now) tran is_there) }
{
    if row.tran.number() == tran.number() {
        changed_again(row, tran, is_there)
    } else {
        Ok(RowTurn {
            tran,
            untaken: 1,
            is_there,
            was_there: left_by(waiting, row),
        })
    }
}

/// The row behind a change of the transaction.
pub fn changed_by(
    waiting: &NumberMap<u64>,
    row: &Option<RowTurn>,
    tran: Lrsn,
    is_there: bool,
) -> Result<RowTurn, NoMemory>
    ensures { IfOk result (λ next. next ≡ changed_by waiting.now row.now tran is_there) }
{
    match row {
        None => Ok(RowTurn {
            tran,
            untaken: 1,
            is_there,
            was_there: false,
        }),
        Some(row) => changed_row(waiting, row, tran, is_there),
    }
}

/// The row where a change of it is taken back.
pub fn taken_by(row: &RowTurn) -> RowTurn
    ensures { result ≡ taken_by row.now }
{
    RowTurn {
        tran: row.tran,
        untaken: row.untaken.saturating_sub(1),
        is_there: row.is_there,
        was_there: row.was_there,
    }
}
