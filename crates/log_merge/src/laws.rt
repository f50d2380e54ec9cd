//! What merged logs keep. The function does nothing: it is called where its facts are needed.

ghost use Rattle.std.specs.Prelude.{List};
ghost use Rattle.std.specs.List.Sorted.{IsPermutation};
ghost use Rattle.ds_model.specs.declared.log.LogRecord.{LogRecord};
ghost use Rattle.log_record.specs.declared.log.Log.{Log};
ghost use Rattle.log_merge.specs.Merging.{kept, all_records, in_order, RisesFrom, NoneFalls, KeepsOrders};

/// The numbers of merged records never fall, and none is lost or added. Where the numbers of no log fall, the merged records
/// keep the order of each log.
pub fn merging_laws()
    ensures rises { (records : List LogRecord) → RisesFrom 0 (in_order records) }
    ensures same { (records : List LogRecord) → IsPermutation (kept records) (in_order records) }
    ensures orders { (logs : List Log) → NoneFalls logs → KeepsOrders logs (in_order (all_records logs)) }
{}
