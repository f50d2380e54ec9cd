//! A report, line by line.

ghost use Rattle.std.specs.Prelude.{◌≡◌, ◌++◌, OnOk, IfOk};
ghost use Rattle.std.specs.List.{flat_map};
ghost use Rattle.ds_model.specs.ReportText.{entry_text, report_text};

use crate::reads::{put_reads, put_rows};
use crate::trace::put_trace;
use ds_base::{Bytes, NoMemory};
use ds_model::{Report, ReportEntry, Told};
use report_line::{put_committed, put_count, put_refused, put_stopped};
use std::alloc::Global;

fn put_entry(alloc: Global, out: &mut Bytes, entry: &ReportEntry) -> Result<(), NoMemory>
    ensures { OnOk result (out.new ≡ out.old ++ entry_text entry.now) }
{
    let name = &entry.name;
    let member = entry.member;
    match &entry.told {
        Told::Committed { answered, reads } => {
            put_committed(alloc, out, name, member, *answered)?;
            put_reads(alloc, out, reads.as_slice())
        }
        Told::Refused(refusal) => put_refused(alloc, out, name, member, refusal),
        Told::Stopped => put_stopped(alloc, out, name, member),
    }
}

fn put_entries(alloc: Global, out: &mut Bytes, entries: &[ReportEntry]) -> Result<(), NoMemory>
    ensures { OnOk result (out.new ≡ out.old ++ flat_map entry_text entries.now) }
{
    for entry in entries {
        put_entry(alloc, out, entry)?;
    }
    Ok(())
}

/// The text of a report: its transactions with their answers, its trace, the rows afterwards, and the status.
///
/// Every line ends with a line feed, words are parted by one blank, and numbers are decimal with no leading zeros.
pub fn write_report(alloc: Global, report: &Report) -> Result<Bytes, NoMemory>
    ensures { IfOk result (λ text. text ≡ report_text report.now) }
{
    let mut out = Bytes::new(alloc);
    out.extend(b"dsgroup 1\n")?;
    put_entries(alloc, &mut out, report.entries.as_slice())?;
    put_trace(alloc, &mut out, &report.trace)?;
    put_count(alloc, &mut out, b"rows ", report.rows.len() as u64)?;
    put_rows(alloc, &mut out, report.rows.as_slice())?;
    put_count(alloc, &mut out, b"end ", report.status as u64)?;
    Ok(out)
}
