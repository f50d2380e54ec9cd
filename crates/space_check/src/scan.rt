//! What is told of some tables while the records of all logs go by.

ghost use Rattle.std.specs.Prelude.{◌≡◌, Bool, [], OnOk};
ghost use Rattle.ds_disk.specs.Pages.{page_at};
ghost use Rattle.ds_model.specs.RecordBytes.{IsAllowed};
ghost use Rattle.log_merge.specs.Merging.{is_merged};
ghost use Rattle.page_images.specs.Images.{Images};
ghost use Rattle.redone_pages.specs.declared.range.TableRange.{TableRange};
ghost use Rattle.disk_walk.specs.Reading.{Reads};
ghost use Rattle.space_check.specs.Scans.{IsScan, IsScanned, ScansAlso, ScansKept};

use disk_versions::MetPages;
use ds_disk::{Disk, DiskError};
use ds_model::{Body, LogRecord};
use log_record::is_allowed;
use redone_pages::TableRange;
use row_turns::Turns;
use std::alloc::Global;
use stood_rows::Standing;

/// What is told of some tables by the records so far.
#[derive(Drop)]
pub struct TableScan {
    /// Their pages, beside those of the disk.
    pub met: MetPages,
    /// Their rows, and the first record that didn't meet its row.
    pub standing: Standing,
    /// Who changes their rows, and what is open.
    pub turns: Turns,
}

// Whether the record changes pages or commits.
fn is_merged(body: &Body) -> bool
    ensures { result ≡ is_merged body.now }
{
    match body {
        Body::RowChange { .. } | Body::Compensation { .. } | Body::System { .. } | Body::Commit =>
            true,
        Body::Ended | Body::Checkpoint { .. } | Body::RestartEnd => false,
    }
}

impl TableScan {
    /// Before the first record. `is_early` says that no transaction changes a row behind its Commit; where that isn't known, what has
    /// committed is held.
    pub fn new(alloc: Global, range: &TableRange, is_early: bool) -> TableScan
        ensures scan { IsScan range.now is_early result }
        ensures scanned { (at : Images) → IsScanned at [] result }
    {
        TableScan {
            met: MetPages::new(alloc, *range),
            standing: Standing::new(alloc, *range),
            turns: Turns::new(alloc, *range, is_early),
        }
    }

    // Takes the next record that changes pages or commits.
    fn take<D: Disk>(
        &mut self,
        alloc: Global,
        disk: &mut D,
        it: &LogRecord,
    ) -> Result<(), DiskError>
        requires allowed { IsAllowed it.now }
        requires range { self.old.met.made.range ≡ self.old.standing.rows.range }
        ensures scan { OnOk result ((range : TableRange) (early : Bool) → IsScan range early self.old → IsScan range early self.new) }
        ensures range { OnOk result (self.new.met.made.range ≡ self.new.standing.rows.range) }
        ensures scanned { Reads (D.contents disk.old) (D.contents disk.new) (D.faults disk.old) (D.faults disk.new) (λ _ c. ScansAlso (page_at c.pages) it.now self.old self.new) result }
    {
        self.standing.take(alloc, &self.met.made, it)?;
        self.turns.take(it)?;
        self.met.take(alloc, disk, it)
    }

    /// Takes the next record. None is met in whole logs that may not stand in a log.
    pub fn take_any<D: Disk>(
        &mut self,
        alloc: Global,
        disk: &mut D,
        it: &LogRecord,
    ) -> Result<(), DiskError>
        requires { self.old.met.made.range ≡ self.old.standing.rows.range }
        ensures scan { OnOk result ((range : TableRange) (early : Bool) → IsScan range early self.old → IsScan range early self.new) }
        ensures range { OnOk result (self.new.met.made.range ≡ self.new.standing.rows.range) }
        ensures scanned { Reads (D.contents disk.old) (D.contents disk.new) (D.faults disk.old) (D.faults disk.new) (λ _ c. ScansKept (page_at c.pages) it.now self.old self.new) result }
    {
        if !is_merged(&it.body) {
            return Ok(());
        }
        if !is_allowed(it) {
            return Err(DiskError::NoMemory);
        }
        self.take(alloc, disk, it)
    }
}
