ghost use Rattle.std.specs.Prelude.{◌≡◌, ◌≤◌, ℕ, List, length, IfOk};
ghost use Rattle.ds_model.specs.declared.log.LogRecord.{LogRecord};
ghost use Rattle.disk_walk.specs.Walks.{AreUpTo, Begins};

use ds_base::NoMemory;
use log_head::whole_laws;
use log_heads::Heads;
use log_record::reading_laws;
use std::alloc::Global;

/// All logs from their first byte on, up to where their whole records end, which are read by blocks of so many bytes.
pub fn heads_to(alloc: Global, ends: &[u64], block: u32) -> Result<Heads, NoMemory>
    requires ends { length ends.now ≡ 32 }
    requires some { 1 ≤ block }
    ensures block { IfOk result (λ heads. heads.block ≡ block) }
    ensures begin { IfOk result (λ heads. (logs : List (List ℕ)) (lists : List (List LogRecord)) → AreUpTo logs ends.now lists → Begins logs heads.heads lists) }
{
    whole_laws();
    reading_laws();
    Heads::new(alloc, &[0u64; 32], ends, block)
}
