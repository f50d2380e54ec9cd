//! What keeping the records of logs comes to. The function does nothing: it is called where its facts are needed.

ghost use Rattle.std.specs.Prelude.{◌≡◌, ℕ, List, Option, Ok};
ghost use Rattle.ds_disk.specs.Contents.{Contents, Becomes, Same};
ghost use Rattle.log_record.specs.declared.log.Log.{Log};
ghost use Rattle.log_record.specs.Logs.{IsLogOf};
ghost use Rattle.disk_restart.specs.Keeping.{lasting_among, lasting, KeepsRecords};

/// A disk that changes nothing keeps its records, and one that keeps them twice in turn keeps them from the first moment to
/// the last. The lasting records of a log are those among the records that are read of it.
pub fn keeping_laws()
    ensures itself { (a : Option Contents) → Becomes a a KeepsRecords }
    ensures same { (a b : Option Contents) → Becomes a b Same → Becomes a b KeepsRecords }
    ensures on { (a b e : Option Contents) → Becomes a b KeepsRecords → Becomes b e KeepsRecords → Becomes a e KeepsRecords }
    ensures read { (bytes : List ℕ) (log : Log) → IsLogOf bytes log → lasting bytes ≡ Ok (lasting_among log.records) }
{}
