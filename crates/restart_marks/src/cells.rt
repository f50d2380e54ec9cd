//! What other members have answered about the page's lock.

ghost use Rattle.std.specs.Prelude.{◌≡◌};
ghost use Rattle.restart_marks.specs.Cells.{is_asked, is_open, is_emptied, added, summed, no_sum, answers_told};

use crate::told::RestartTold;
use list_structure::{Cell, CellAnswer};

/// What several cells say.
#[derive(Clone, Copy, Debug, PartialEq, Eq)]
pub struct Sum {
    pub is_open: bool,
    pub is_emptied: bool,
}

// Whether the member of this cell was asked.
fn is_asked(asked: u32, at: usize) -> bool
    ensures { result ≡ is_asked asked at }
{
    at < 32 && asked >> at & 1 == 1
}

fn is_open(cell: &Cell) -> bool
    ensures { result ≡ is_open cell.now }
{
    matches!(cell, Cell::Asked { .. })
}

// Whether the member is to be asked again: a page's lock is answered only once it is given up.
fn is_emptied(cell: &Cell) -> bool
    ensures { result ≡ is_emptied cell.now }
{
    match cell {
        Cell::Empty => true,
        Cell::Asked { .. } => false,
        Cell::Answered { answer, .. } => !matches!(answer, CellAnswer::Clean),
    }
}

fn added(sum: Sum, cell: &Cell) -> Sum
    ensures { result ≡ added sum cell.now }
{
    Sum {
        is_open: sum.is_open || is_open(cell),
        is_emptied: sum.is_emptied || is_emptied(cell),
    }
}

fn summed(cells: &[Cell], asked: u32) -> Sum
    ensures { result ≡ summed cells.now 0 asked no_sum }
{
    let mut sum = Sum {
        is_open: false,
        is_emptied: false,
    };
    for (at, cell) in cells.iter().enumerate() {
        if is_asked(asked, at) {
            sum = added(sum, cell);
        }
    }
    sum
}

/// What the cells of those asked say.
pub fn answers_told(asked: u32, cells: &[Cell]) -> RestartTold
    ensures { result ≡ answers_told asked cells.now }
{
    let sum = summed(cells, asked);
    RestartTold::Cells {
        open: sum.is_open,
        emptied: sum.is_emptied,
    }
}
