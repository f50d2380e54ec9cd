//! The lines of reads, scans and rows.

ghost use Rattle.std.specs.Prelude.{◌≡◌, ◌++◌, OnOk};
ghost use Rattle.std.specs.List.{flat_map};
ghost use Rattle.ds_model.specs.ReportText.{scanned_text, read_text, row_text};

use ds_base::{Bytes, NoMemory, Row};
use ds_model::ToldRead;
use report_line::{put_get, put_row, put_scan};
use std::alloc::Global;

fn put_scanned(alloc: Global, out: &mut Bytes, row: &Row) -> Result<(), NoMemory>
    ensures { OnOk result (out.new ≡ out.old ++ scanned_text row.now) }
{
    put_get(alloc, out, row.table, row.key, &Some(row.value))
}

fn put_all_scanned(alloc: Global, out: &mut Bytes, rows: &[Row]) -> Result<(), NoMemory>
    ensures { OnOk result (out.new ≡ out.old ++ flat_map scanned_text rows.now) }
{
    for row in rows {
        put_scanned(alloc, out, row)?;
    }
    Ok(())
}

fn put_read(alloc: Global, out: &mut Bytes, read: &ToldRead) -> Result<(), NoMemory>
    ensures { OnOk result (out.new ≡ out.old ++ read_text read.now) }
{
    match read {
        ToldRead::Get { table, key, value } => put_get(alloc, out, *table, *key, value),
        ToldRead::Scan {
            table,
            low,
            high,
            rows,
        } => {
            put_scan(alloc, out, *table, *low, *high, rows.len() as u64)?;
            put_all_scanned(alloc, out, rows.as_slice())
        }
    }
}

/// Adds the lines of a transaction's answers.
pub fn put_reads(alloc: Global, out: &mut Bytes, reads: &[ToldRead]) -> Result<(), NoMemory>
    ensures { OnOk result (out.new ≡ out.old ++ flat_map read_text reads.now) }
{
    for read in reads {
        put_read(alloc, out, read)?;
    }
    Ok(())
}

/// Adds a line for each row.
pub fn put_rows(alloc: Global, out: &mut Bytes, rows: &[Row]) -> Result<(), NoMemory>
    ensures { OnOk result (out.new ≡ out.old ++ flat_map row_text rows.now) }
{
    for row in rows {
        put_row(alloc, out, row)?;
    }
    Ok(())
}
