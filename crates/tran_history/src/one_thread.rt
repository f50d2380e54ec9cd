//! What one thread makes of a history.

ghost use Rattle.std.specs.Prelude.{◌≡◌, true, OnOk, IfOk, Decides};
ghost use Rattle.std.specs.Option.{SomeIff};
ghost use Rattle.ds_model.specs.Rows.{AreSorted, map_of, listed};
ghost use Rattle.ds_model.specs.History as model;
ghost use Rattle.ds_model.specs.History.{after_fate, PrintIsLegal, ArePrintsLegal};

use crate::History;
use crate::ops::replay_tran;
use crate::same::same_reads;
use ds_base::{NoMemory, RowList, Value};
use ds_model::{Entry, Fate};
use spot_map::SpotMap;
use std::alloc::Global;

// Gives rows the effect of an entry, and tells whether the reads that it prints are its answers.
fn replay_entry(alloc: Global, rows: &mut SpotMap<Value>, entry: &Entry) -> Result<bool, NoMemory>
    ensures rows { OnOk result (rows.new ≡ after_fate rows.old entry.now.tran.ops entry.now.fate) }
    ensures legal { IfOk result (λ legal. Decides legal (PrintIsLegal rows.old entry.now.tran.ops entry.now.fate)) }
{
    match &entry.fate {
        Fate::Committed { answered, reads } => {
            let told = replay_tran(alloc, rows, entry.tran.ops.as_slice())?;
            Ok(!*answered || same_reads(reads.as_slice(), told.as_slice()))
        }
        Fate::Refused(_) => Ok(true),
        Fate::Stopped => Ok(true),
    }
}

// The same for entries in order, as long as what they print is right.
fn replay_on(alloc: Global, rows: &mut SpotMap<Value>, entries: &[Entry]) -> Result<bool, NoMemory>
    ensures rows { IfOk result (λ legal. legal ≡ true → rows.new ≡ model.replay rows.old entries.now) }
    ensures legal { IfOk result (λ legal. Decides legal (ArePrintsLegal rows.old entries.now)) }
{
    for entry in entries {
        if !replay_entry(alloc, rows, entry)? {
            return Ok(false);
        }
    }
    Ok(true)
}

/// The rows after one thread has run the committed transactions of these entries in their order, on opening rows
/// in order, or `None` where it reads otherwise than an answered transaction has read.
pub fn replay_entries(
    alloc: Global,
    opening: &RowList,
    entries: &[Entry],
) -> Result<Option<RowList>, NoMemory>
    requires { AreSorted opening.now }
    ensures { IfOk result (λ rows. SomeIff rows (ArePrintsLegal (map_of opening.now) entries.now) (listed (model.replay (map_of opening.now) entries.now))) }
{
    let mut rows = SpotMap::from_rows(alloc, opening)?;
    if !replay_on(alloc, &mut rows, entries)? {
        return Ok(None);
    }
    Ok(Some(rows.into_rows(alloc)?))
}

/// The same for the entries of a history.
pub fn replay(
    alloc: Global,
    opening: &RowList,
    history: &History,
) -> Result<Option<RowList>, NoMemory>
    requires { AreSorted opening.now }
    ensures { IfOk result (λ rows. SomeIff rows (ArePrintsLegal (map_of opening.now) history.now.entries) (listed (model.replay (map_of opening.now) history.now.entries))) }
{
    replay_entries(alloc, opening, history.entries())
}
