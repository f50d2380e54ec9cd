//! The recovery of a table.

ghost use Rattle.std.specs.Prelude.{◌≡◌, false, []};
ghost use Rattle.ds_disk.specs.Contents.{Becomes};
ghost use Rattle.disk_restart.specs.Keeping.{KeepsRecords};
ghost use Rattle.checked_run.specs.Accounts.{no_account};
ghost use Rattle.group_run.specs.Ends.{FinishesRecovery};

use crate::finish::{Finished, finish_unopened, tell_line};
use crate::telling::recovered_status;
use disk_orders::recover_table;
use ds_base::{Sink, Source, TableId};
use ds_disk::Disk;
use std::alloc::Global;

/// Recovers a table, and tells what came of it.
pub fn finish_recovery<S: Source, D: Disk, K: Sink>(
    alloc: Global,
    source: &mut S,
    mut disk: D,
    sink: &mut K,
    table: TableId,
) -> Finished<D>
    ensures recovers { FinishesRecovery table (record { contents = D.contents disk; disk_faults = D.faults disk; left = S.left source.old; source_faults = S.faults source.old })
        (record { contents = D.contents result.disk; disk_faults = D.faults result.disk; left = S.left source.new; source_faults = S.faults source.new })
        (K.taken sink.old) (K.taken sink.new) (K.faults sink.old) (K.faults sink.new) result.status }
    ensures unopened { (result.opened ≡ false) × (result.opening ≡ []) × (record { journal = result.journal; causes = result.causes; faults = result.faults } ≡ no_account) × (result.report.entries ≡ []) }
    ensures left { Becomes (D.contents disk) (D.contents result.disk) KeepsRecords }
{
    let came = recover_table(alloc, &mut disk, source, table);
    let status = tell_line(alloc, sink, recovered_status(table, came));
    finish_unopened(alloc, disk, status)
}
