ghost use Rattle.std.specs.Prelude.{◌≡◌, ◌+◌, ℕ, Bool, true, false, ◌||◌, List, IfOk};
ghost use Rattle.ds_model.specs.declared.log.LogRecord.{LogRecord};
ghost use Rattle.row_turns.specs.Scans.{AreTurnsTold};
ghost use Rattle.row_turns.specs.Ranges.{AreApart, sooner};

use ds_base::{Lrsn, NoMemory};

/// A change of a row out of turn.
#[derive(Clone, Copy, Debug, PartialEq, Eq)]
pub struct OutOfTurn {
    /// The place of the record among all that were taken, from 0 on.
    pub index: u64,
    pub number: Lrsn,
}

/// What is told of the rows of some tables.
#[derive(Clone, Copy, Debug, PartialEq, Eq)]
pub struct Told {
    /// The first change of one of them that is out of turn.
    pub out: Option<OutOfTurn>,
    /// How many row changes are open, where none is out of turn.
    pub open: u64,
    /// How many rows the committed changes leave, where none is out of turn.
    pub rows: u64,
}

fn sooner(a: Option<OutOfTurn>, b: Option<OutOfTurn>) -> Option<OutOfTurn>
    ensures { result ≡ sooner a b }
{
    match (a, b) {
        (None, _) => b,
        (Some(_), None) => a,
        (Some(one), Some(other)) => {
            if other.index < one.index {
                Some(other)
            } else {
                Some(one)
            }
        }
    }
}

// No disk has so many records that a number of 64 bits doesn't hold how many.
fn add(a: u64, b: u64) -> Result<u64, NoMemory>
    ensures { IfOk result (λ sum. sum ≡ a + b) }
{
    a.checked_add(b).ok_or(NoMemory)
}

impl Told {
    /// Of no table.
    pub fn none() -> Told
        ensures { (records : List LogRecord) → AreTurnsTold (λ table. false) records result }
    {
        Told {
            out: None,
            open: 0,
            rows: 0,
        }
    }

    /// The same of more tables.
    pub fn and(&self, other: &Told) -> Result<Told, NoMemory>
        ensures { IfOk result (λ both. (p q : ℕ → Bool) (records : List LogRecord) → AreApart p q → AreTurnsTold p records self.now → AreTurnsTold q records other.now → AreTurnsTold (λ table. p table || q table) records both) }
    {
        let open = add(self.open, other.open)?;
        let rows = add(self.rows, other.rows)?;
        Ok(Told {
            out: sooner(self.out, other.out),
            open,
            rows,
        })
    }
}
