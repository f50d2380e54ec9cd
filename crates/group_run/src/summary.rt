//! The line that is told of work that was drawn from a number.

ghost use Rattle.std.specs.Prelude.{◌≡◌, ◌++◌, decimal, IfOk, OnOk};
ghost use Rattle.std.specs.List.{count_by};
ghost use Rattle.group_run.specs.Summary.{is_committed, is_refused, is_stopped, fates_text, summary_text};

use ds_base::{Bytes, NoMemory};
use ds_model::{Report, ReportEntry, Told};
use std::alloc::Global;

fn is_committed(entry: &ReportEntry) -> bool
    ensures { result ≡ is_committed entry.now }
{
    matches!(&entry.told, Told::Committed { .. })
}

fn is_refused(entry: &ReportEntry) -> bool
    ensures { result ≡ is_refused entry.now }
{
    matches!(&entry.told, Told::Refused(_))
}

fn is_stopped(entry: &ReportEntry) -> bool
    ensures { result ≡ is_stopped entry.now }
{
    matches!(&entry.told, Told::Stopped)
}

fn count_committed(entries: &[ReportEntry]) -> usize
    ensures { result ≡ count_by is_committed entries.now }
{
    entries.iter().filter(|entry| is_committed(entry)).count()
}

fn count_refused(entries: &[ReportEntry]) -> usize
    ensures { result ≡ count_by is_refused entries.now }
{
    entries.iter().filter(|entry| is_refused(entry)).count()
}

fn count_stopped(entries: &[ReportEntry]) -> usize
    ensures { result ≡ count_by is_stopped entries.now }
{
    entries.iter().filter(|entry| is_stopped(entry)).count()
}

fn put_number(alloc: Global, out: &mut Bytes, text: &[u8], number: u64) -> Result<(), NoMemory>
    ensures { OnOk result (out.new ≡ out.old ++ (text.now ++ decimal number)) }
{
    out.extend(text)?;
    out.extend_number(alloc, number)
}

// How many transactions there are, and how many of each fate.
#[tactic(auto, unfolding(crate::specs::Summary::fates_text))]
fn put_fates(alloc: Global, out: &mut Bytes, entries: &[ReportEntry]) -> Result<(), NoMemory>
    ensures { OnOk result (out.new ≡ out.old ++ fates_text entries.now) }
{
    put_number(alloc, out, b" transactions ", entries.len() as u64)?;
    put_number(alloc, out, b" committed ", count_committed(entries) as u64)?;
    put_number(alloc, out, b" refused ", count_refused(entries) as u64)?;
    put_number(alloc, out, b" stopped ", count_stopped(entries) as u64)?;
    Ok(())
}

/// The line for the script of a number, of which this is the report.
#[tactic(auto, unfolding(crate::specs::Summary::summary_text))]
pub fn write_summary(alloc: Global, n: u64, report: &Report) -> Result<Bytes, NoMemory>
    ensures { IfOk result (λ text. text ≡ summary_text n report.now) }
{
    let mut out = Bytes::new(alloc);
    put_number(alloc, &mut out, b"work ", n)?;
    put_fates(alloc, &mut out, report.entries.as_slice())?;
    put_number(alloc, &mut out, b" rows ", report.rows.len() as u64)?;
    put_number(alloc, &mut out, b" end ", report.status as u64)?;
    out.extend(b"\n")?;
    Ok(out)
}
