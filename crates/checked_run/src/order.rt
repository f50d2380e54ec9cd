//! The order in which the transactions of a run are printed.

ghost use Rattle.std.specs.Prelude.{◌≡◌, IfOk, OnOk};
ghost use Rattle.checked_run.specs.Printed.{print_key, IsPrinted};

use ds_base::NoMemory;
use ds_model::{Entry, Fate};

// Committed ones come first, and all others by their numbers.
fn print_key(entry: &Entry) -> u32
    ensures { result ≡ print_key entry.now }
{
    match &entry.fate {
        Fate::Committed { .. } => 0,
        Fate::Refused(_) | Fate::Stopped => entry.tran.number,
    }
}

/// The committed ones in the order of their commits, and then all others by their numbers, which are counted from 1.
pub fn in_print_order(entries: Vec<Entry>) -> Result<Vec<Entry>, NoMemory>
    ensures { IfOk result (λ printed. IsPrinted entries.items printed.items) }
{
    let mut printed = entries;
    printed.sort_by_key(|entry| print_key(entry))?;
    Ok(printed)
}
