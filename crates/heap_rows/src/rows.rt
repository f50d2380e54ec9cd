ghost use Rattle.std.specs.Prelude.{◌≡◌, OnOk};
ghost use Rattle.ds_model.specs.Logs.{set_row};

use ds_base::{NoMemory, Value};
use log_record::RowChange;
use spot_map::SpotMap;

pub fn put(rows: &mut SpotMap<Value>, change: &RowChange) -> Result<(), NoMemory>
    ensures { OnOk result (rows.new ≡ set_row rows.old change.now.table change.now.key change.now.after) }
{
    match change.after {
        None => {
            rows.remove(change.table, change.key);
            Ok(())
        }
        Some(value) => rows.insert(change.table, change.key, value),
    }
}
