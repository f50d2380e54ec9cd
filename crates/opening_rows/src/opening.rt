ghost use Rattle.ds_model.specs.Rows.{AreSorted};
ghost use Rattle.std.specs.Prelude.{IfOk};
ghost use Rattle.opening_rows.specs.Reading.{ReadsBy, BreaksAt};
ghost use Rattle.opening_rows.specs.Opening.{OpensAs};

use crate::fault::LogsFault;
use crate::rows::read_rows;
use crate::surveyed::survey_logs;
use disk_heads::BLOCK;
use ds_base::RowList;
use ds_disk::Disk;
use std::alloc::Global;

/// What the logs of a disk tell before a run.
#[derive(Drop)]
pub struct Opening {
    /// The rows that the logs stand for, in their order.
    pub rows: RowList,
    /// How many records the log of each member has.
    pub had: Vec<usize>,
}

/// Reads the logs as they stand, by blocks: no more of a log is in memory than a block and the longest record, and beside
/// these the rows, and the number of each transaction that has changed one and hasn't committed. What a stop cut short at the
/// end of a log is no damage, and no record. A number that is lower than the one before it in its log is damage.
pub fn read_opening<D: Disk>(alloc: Global, disk: &mut D) -> Result<Opening, LogsFault>
    ensures opening { ReadsBy (D.contents disk.old) (D.contents disk.new) (D.faults disk.old) (D.faults disk.new) (λ opening c. OpensAs c opening) BreaksAt result }
    ensures in_order { IfOk result (λ opening. AreSorted opening.rows) }
{
    let mut block = vec![in alloc; 0u8; BLOCK]?;
    let all = survey_logs(alloc, disk, &mut block)?;
    let rows = read_rows(alloc, disk, &all, &mut block)?;
    Ok(Opening { rows, had: all.had })
}
