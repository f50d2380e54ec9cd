//! The order of a report's entries.

ghost use Rattle.std.specs.Prelude.{◌≡◌, ◌<◌, ◌≤◌, ◌+◌, true, false, length, take, map, slice_get, IfSome, Decides};
ghost use Rattle.std.specs.List.{AllByRecursion};
ghost use Rattle.ds_model.specs.History.{IsInOrder};
ghost use Rattle.ds_model.specs.History as model;
ghost use Rattle.report_check.specs.Order.{front_of, AreOthers};

use ds_model::{Entry, Fate};

fn is_committed(fate: &Fate) -> bool
    ensures { result ≡ model.is_committed fate.now }
{
    matches!(fate, Fate::Committed { .. })
}

// How many committed ones stand first.
fn front(entries: &[Entry]) -> usize
    ensures count { result ≡ front_of entries.now }
    ensures within { result ≤ length entries.now }
{
    let mut count = 0;
    for entry in entries {
        if !is_committed(&entry.fate) {
            return count;
        }
        count += 1;
    }
    count
}

// Whether none is committed, and their numbers rise.
fn are_others(entries: &[Entry]) -> bool
    ensures { Decides result (AreOthers 0 entries.now) }
{
    let mut last = 0;
    for entry in entries {
        if is_committed(&entry.fate) || entry.tran.number <= last {
            return false;
        }
        last = entry.tran.number;
    }
    true
}

/// Whether the committed ones stand first, and the others by their numbers.
pub fn is_in_order(entries: &[Entry]) -> bool
    ensures { Decides result (IsInOrder entries.now) }
{
    are_others(&entries[front(entries)..])
}
