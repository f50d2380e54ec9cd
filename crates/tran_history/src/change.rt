//! Changes of rows, and how they are taken back.

ghost use Rattle.std.specs.Prelude.{◌≡◌, OnOk};
ghost use Rattle.ds_model.specs.Logs.{set_row};
ghost use Rattle.tran_history.specs.Changes.{undone};

use ds_base::{Key, NoMemory, TableId, Value};
use spot_map::SpotMap;

/// A row that was changed, and what stood there before.
#[derive(Clone, Copy, Debug)]
pub struct Change {
    pub table: TableId,
    pub key: Key,
    pub before: Option<Value>,
}

fn restore(rows: &mut SpotMap<Value>, change: Change) -> Result<(), NoMemory>
    ensures { OnOk result (rows.new ≡ set_row rows.old change.table change.key change.before) }
{
    match change.before {
        None => {
            rows.remove(change.table, change.key);
            Ok(())
        }
        Some(value) => rows.insert(change.table, change.key, value),
    }
}

/// Takes changes back, the last first.
pub fn take_back(rows: &mut SpotMap<Value>, mut changes: Vec<Change>) -> Result<(), NoMemory>
    ensures { OnOk result (rows.new ≡ undone rows.old changes.items) }
{
    while let Some(change) = changes.pop() {
        restore(rows, change)?;
    }
    Ok(())
}
