//! The copy of a table.

ghost use Rattle.std.specs.Prelude.{◌≡◌, ◌≢◌, false, []};
ghost use Rattle.ds_disk.specs.Contents.{Becomes};
ghost use Rattle.disk_restart.specs.Keeping.{KeepsRecords};
ghost use Rattle.checked_run.specs.Accounts.{no_account};
ghost use Rattle.disk_orders.specs.Copying.{CopyFault};
ghost use Rattle.disk_orders.specs.Copying.fault as fault;
ghost use Rattle.disk_orders.specs.declared.copies.Copied.TheVariants as copied;
ghost use Rattle.group_run.specs.Ends.{TellsCopy, FinishesCopy};

use crate::finish::{Finished, finish_unopened, tell_line};
use crate::status::Status;
use crate::telling::copy_status;
use disk_orders::{Copied, copy};
use ds_base::{Sink, TableId};
use ds_disk::Disk;
use std::alloc::Global;

// Tells what a copy has come to. Nothing is written behind an image, or a front of one.
fn tell_copy<K: Sink>(alloc: Global, sink: &mut K, came: Copied) -> Status
    requires { (why : CopyFault) → came ≡ copied.Unopened why → why ≢ fault.Sink }
    ensures { TellsCopy came result (K.taken sink.old) (K.taken sink.new) (K.faults sink.old) (K.faults sink.new) }
{
    match came {
        Copied::Whole { .. } => Status::Done,
        Copied::Broken(why) => copy_status(why),
        Copied::Unopened(why) => tell_line(alloc, sink, copy_status(why)),
    }
}

/// Copies a table, and tells what came of it.
pub fn finish_copy<D: Disk, K: Sink>(
    alloc: Global,
    mut disk: D,
    sink: &mut K,
    table: TableId,
) -> Finished<D>
    ensures copies { FinishesCopy table (D.contents disk) (D.contents result.disk) (D.faults disk) (D.faults result.disk) (K.taken sink.old) (K.taken sink.new) (K.faults sink.old) (K.faults sink.new) result.status }
    ensures unopened { (result.opened ≡ false) × (result.opening ≡ []) × (record { journal = result.journal; causes = result.causes; faults = result.faults } ≡ no_account) × (result.report.entries ≡ []) }
    ensures left { Becomes (D.contents disk) (D.contents result.disk) KeepsRecords }
{
    let came = copy(alloc, &mut disk, sink, table);
    let status = tell_copy(alloc, sink, came);
    finish_unopened(alloc, disk, status)
}
