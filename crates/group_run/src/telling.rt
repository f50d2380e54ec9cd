//! What is told at the end of a call.

ghost use Rattle.std.specs.Prelude.{◌≡◌, IfOk};
ghost use Rattle.group_run.specs.Reports.{empty_report};
ghost use Rattle.group_run.specs.Tellings.{short_telling, script_telling, met_by, told_text, telling_of, fault_status, checked_status, copy_status, recovered_status, IsOrWanting};

use crate::status::{Status, text_of};
use crate::summary::write_summary;
use checked_run::{Ended, RunFault, plain_report};
use disk_orders::{Checked, CopyFault};
use ds_base::{Bytes, NoMemory, RowList, TableId};
use ds_model::Report;
use report_text::write_report;
use script_text::script_bytes;
use std::alloc::Global;
use work_maker::make_script;

/// A status, the text that is written for it, and the report that is returned.
#[derive(Drop)]
pub struct Telling {
    pub status: Status,
    pub text: Bytes,
    pub report: Report,
}

/// A report of nothing that was done over no rows.
pub fn empty_report(alloc: Global, status: u8) -> Report
    ensures { result ≡ empty_report status }
{
    plain_report(alloc, RowList::new(alloc), status)
}

/// A status without a report.
pub fn short_telling(alloc: Global, status: Status) -> Result<Telling, NoMemory>
    ensures { IfOk result (λ telling. telling ≡ short_telling status) }
{
    Ok(Telling {
        status,
        text: text_of(alloc, &status)?,
        report: empty_report(alloc, status.number()),
    })
}

/// The script of a number.
pub fn script_telling(alloc: Global, n: u64) -> Result<Telling, NoMemory>
    ensures { IfOk result (λ telling. telling ≡ script_telling n) }
{
    let script = make_script(alloc, n)?;
    Ok(Telling {
        status: Status::Done,
        text: script_bytes(alloc, &script)?,
        report: empty_report(alloc, 0),
    })
}

// The status that a report ends with.
fn met_by(report: &Report) -> Status
    ensures { result ≡ met_by report.now }
{
    if report.status == 5 {
        Status::DiskFailed
    } else {
        Status::Done
    }
}

// The report, or the line of the work of this number.
fn told_text(alloc: Global, work: Option<u64>, report: &Report) -> Result<Bytes, NoMemory>
    ensures { IfOk result (λ text. text ≡ told_text work report.now) }
{
    match work {
        Some(n) => write_summary(alloc, n, report),
        None => write_report(alloc, report),
    }
}

fn report_telling(alloc: Global, work: Option<u64>, report: Report) -> Result<Telling, NoMemory>
    ensures { IfOk result (λ telling. telling ≡ telling_of work (Ended.Told report)) }
{
    let text = told_text(alloc, work, &report)?;
    Ok(Telling {
        status: met_by(&report),
        text,
        report,
    })
}

/// What a disk came to that was opened, for a script that was read or the work of this number.
pub fn telling_of(alloc: Global, work: Option<u64>, ended: Ended) -> Result<Telling, NoMemory>
    ensures { IfOk result (λ telling. telling ≡ telling_of work ended) }
{
    match ended {
        Ended::Told(report) => report_telling(alloc, work, report),
        Ended::Damaged { volume, at } => short_telling(alloc, Status::Damaged { volume, at }),
        Ended::Unsound { event } => short_telling(alloc, Status::SelfCheckFailed { event }),
        Ended::NoMemory => short_telling(alloc, Status::NoMemory),
    }
}

/// The status of a disk that was not opened.
pub fn fault_status(why: RunFault) -> Status
    ensures { result ≡ fault_status why }
{
    match why {
        RunFault::Failed => Status::DiskFailed,
        RunFault::Damaged { volume, at } => Status::Damaged { volume, at },
        RunFault::Unlawful { place } => Status::SelfCheckFailed { event: place },
        RunFault::NoMemory => Status::NoMemory,
    }
}

/// The status of a disk that was checked.
pub fn checked_status(told: Checked) -> Status
    ensures { result ≡ checked_status told }
{
    match told {
        Checked::Sound { pages, rows } => Status::Sound { pages, rows },
        Checked::Unsound(breach) => Status::Unsound(breach),
        Checked::Failed => Status::DiskFailed,
        Checked::NoMemory => Status::NoMemory,
    }
}

/// The status of a table that was not copied or recovered.
pub fn copy_status(why: CopyFault) -> Status
    ensures { result ≡ copy_status why }
{
    match why {
        CopyFault::Source => Status::SourceFailed,
        CopyFault::Sink => Status::SinkFailed,
        CopyFault::Disk => Status::DiskFailed,
        CopyFault::Damaged { volume, at } => Status::Damaged { volume, at },
        CopyFault::Image { at } => Status::ImageRefused { at },
        CopyFault::NoMemory => Status::NoMemory,
    }
}

/// The status of a table that was to be recovered.
pub fn recovered_status(table: TableId, came: Result<u64, CopyFault>) -> Status
    ensures { result ≡ recovered_status table came }
{
    match came {
        Ok(pages) => Status::Recovered { table, pages },
        Err(why) => copy_status(why),
    }
}

/// What is told where memory may have been wanting for it.
pub fn or_wanting(alloc: Global, made: Result<Telling, NoMemory>) -> Telling
    ensures { (wanted : Telling) → IfOk made (λ telling. telling ≡ wanted) → IsOrWanting wanted result }
{
    match made {
        Ok(telling) => telling,
        Err(NoMemory) => Telling {
            status: Status::NoMemory,
            text: Bytes::new(alloc),
            report: empty_report(alloc, Status::NoMemory.number()),
        },
    }
}
