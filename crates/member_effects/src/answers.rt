//! What other members have answered about a lock.

ghost use Rattle.std.specs.Prelude.{◌≡◌};
ghost use Rattle.ds_model.specs.declared.fate.Refusal.TheVariants.{Held, Retained};
ghost use Rattle.facility.specs.LockCommands.{is_about};
ghost use Rattle.member_needs.specs.Given.{offered};
ghost use Rattle.member_effects.specs.Answers.{said_in_answer, said_by, is_asked, added, is_found, summed, nothing, in_the_way_after, in_the_way_told, found_after, sum_told, answered_after, answered_told};

use crate::told::Told;
use ds_base::{MemberId, TranId};
use ds_model::Refusal;
use list_structure::{Cell, CellAnswer};
use lock_names::{Mode, Name, is_same_mode, is_same_name};
use member_needs::{Marks, Owner};

/// What one cell says about a need.
#[derive(Clone, Copy, Debug, PartialEq, Eq)]
pub enum Said {
    /// Nothing is in the way.
    Clean,
    /// Nothing was asked.
    Empty,
    /// It isn't answered yet.
    Open,
    /// Something is in the way, as this event has said.
    InTheWay { answer: CellAnswer, event: u64 },
}

/// What several cells say.
#[derive(Clone, Copy, Debug, PartialEq, Eq)]
pub struct Sum {
    pub is_open: bool,
    pub is_emptied: bool,
    pub found: Said,
}

// Whether the answer is to a query about this name and mode.
fn is_about(name: &Name, mode: Mode, asked_name: &Name, asked_mode: Mode) -> bool
    ensures { result ≡ is_about name.now mode asked_name.now asked_mode }
{
    is_same_name(asked_name, name) && is_same_mode(asked_mode, mode)
}

fn said_in_answer(is_of: bool, answer: CellAnswer, event: u64) -> Said
    ensures { result ≡ said_in_answer is_of answer event }
{
    match answer {
        CellAnswer::Clean => Said::Clean,
        CellAnswer::Conflict { .. } | CellAnswer::Postponed { .. } if is_of => {
            Said::InTheWay { answer, event }
        }
        CellAnswer::Conflict { .. } | CellAnswer::Postponed { .. } => Said::Empty,
    }
}

fn said_by(cell: &Cell, name: &Name, mode: Mode) -> Said
    ensures { result ≡ said_by cell.now name.now mode }
{
    match cell {
        Cell::Empty => Said::Empty,
        Cell::Asked { .. } => Said::Open,
        Cell::Answered {
            name: asked_name,
            mode: asked_mode,
            answer,
            event,
            ..
        } => said_in_answer(
            is_about(name, mode, asked_name, *asked_mode),
            *answer,
            *event,
        ),
    }
}

// Whether the member of this cell was asked.
fn is_asked(asked: u32, at: usize) -> bool
    ensures { result ≡ is_asked asked at }
{
    at < 32 && asked >> at & 1 == 1
}

fn added(sum: &Sum, said: &Said) -> Sum
    ensures { result ≡ added sum.now said.now }
{
    match said {
        Said::Clean => *sum,
        Said::Empty => Sum {
            is_emptied: true,
            ..*sum
        },
        Said::Open => Sum {
            is_open: true,
            ..*sum
        },
        Said::InTheWay { .. } => Sum {
            found: *said,
            ..*sum
        },
    }
}

fn is_found(said: &Said) -> bool
    ensures { result ≡ is_found said.now }
{
    match said {
        Said::InTheWay { .. } => true,
        Said::Clean | Said::Empty | Said::Open => false,
    }
}

fn nothing() -> Sum
    ensures { result ≡ nothing }
{
    Sum {
        is_open: false,
        is_emptied: false,
        found: Said::Clean,
    }
}

// What the cells of those asked say, up to the first that has something in the way.
fn summed(cells: &[Cell], asked: u32, name: &Name, mode: Mode) -> Sum
    ensures { result ≡ summed cells.now 0 asked name.now mode nothing }
{
    let mut sum = nothing();
    for (at, cell) in cells.iter().enumerate() {
        if is_asked(asked, at) {
            let said = said_by(cell, name, mode);
            sum = added(&sum, &said);
            if is_found(&said) {
                return sum;
            }
        }
    }
    sum
}

fn offer_held(marks: &mut Marks, owner: &Owner, name: &Name, by: &TranId, event: u64)
    ensures { marks.new ≡ offered marks.old owner.now (Held name.now by.now) event }
{
    let refusal = Refusal::Held {
        name: *name,
        by: *by,
    };
    marks.offer(owner, refusal, event);
}

fn offer_retained(marks: &mut Marks, owner: &Owner, name: &Name, by: &MemberId, event: u64)
    ensures { marks.new ≡ offered marks.old owner.now (Retained name.now by.now) event }
{
    let refusal = Refusal::Retained {
        name: *name,
        by: *by,
    };
    marks.offer(owner, refusal, event);
}

fn in_the_way(
    marks: &mut Marks,
    owner: &Owner,
    name: &Name,
    answer: &CellAnswer,
    event: u64,
) -> Told
    ensures told { result ≡ in_the_way_told answer.now }
    ensures after { marks.new ≡ in_the_way_after marks.old owner.now name.now answer.now event }
{
    match answer {
        CellAnswer::Clean => Told::Stepped,
        CellAnswer::Conflict { by } => {
            offer_held(marks, owner, name, by, event);
            Told::Conflict { by: *by }
        }
        CellAnswer::Postponed { member } => {
            offer_retained(marks, owner, name, member, event);
            Told::Refused
        }
    }
}

fn settled(marks: &mut Marks, owner: &Owner, name: &Name, sum: &Sum) -> Told
    ensures told { result ≡ sum_told sum.now sum.now.found }
    ensures after { marks.new ≡ found_after marks.old owner.now name.now sum.now.found }
{
    match &sum.found {
        Said::InTheWay { answer, event } => in_the_way(marks, owner, name, answer, *event),
        Said::Clean | Said::Empty | Said::Open => Told::Cells {
            open: sum.is_open,
            emptied: sum.is_emptied,
        },
    }
}

/// What the cells of those asked say. Something in the way goes before an empty cell, and that before one that isn't
/// answered yet.
pub fn answered(
    marks: &mut Marks,
    owner: &Owner,
    name: &Name,
    mode: Mode,
    asked: u32,
    cells: &[Cell],
) -> Told
    ensures told { result ≡ answered_told name.now mode asked cells.now }
    ensures after { marks.new ≡ answered_after marks.old owner.now name.now mode asked cells.now }
{
    let sum = summed(cells, asked, name, mode);
    settled(marks, owner, name, &sum)
}
