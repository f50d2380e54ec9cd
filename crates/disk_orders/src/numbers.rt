//! The greatest number of the logs of a disk.

ghost use Rattle.std.specs.Prelude.{◌≡◌};
ghost use Rattle.restart_plan.specs.Greatest.{no_number, greatest_among};
ghost use Rattle.table_copy.specs.Looking.{Looks};
ghost use Rattle.disk_orders.specs.Numbers.{greater, greatest_in, greatest_of, IsGreatest, IsBrokenAt};

use disk_logs::{Found, read_logs};
use ds_base::{Lrsn, Volume};
use ds_disk::Disk;
use log_record::{Log, LogRecord};
use std::alloc::Global;
use table_copy::CopyFault;

fn no_number() -> Lrsn
    ensures { result ≡ 0 }
{
    match Lrsn::new(0) {
        Some(number) => number,
        None => unreachable!(),
    }
}

fn greater(a: Lrsn, b: Lrsn) -> Lrsn
    ensures { result ≡ greater a b }
{
    if a.number() < b.number() { b } else { a }
}

fn greatest_in(last: Lrsn, records: &[LogRecord]) -> Lrsn
    ensures { result ≡ greatest_in last records.now }
{
    let mut greatest = last;
    for record in records {
        greatest = greater(greatest, record.lrsn);
    }
    greatest
}

fn greatest_of(logs: &[Log]) -> Lrsn
    ensures { result ≡ greatest_of 0 logs.now }
{
    let mut greatest = no_number();
    for log in logs {
        greatest = greatest_in(greatest, log.records());
    }
    greatest
}

#[tactic(auto, using(crate::proofs::Greatest::among_is))]
fn greatest_among(logs: &[Log]) -> Lrsn
    ensures { result ≡ (greatest_among no_number logs.now).lrsn }
{
    greatest_of(logs)
}

/// The greatest number (LRSN) of the logs, or where the first of them breaks off.
pub fn greatest_number<D: Disk>(alloc: Global, disk: &mut D) -> Result<Lrsn, CopyFault>
    ensures { Looks (D.contents disk.old) (D.contents disk.new) (D.faults disk.old) (D.faults disk.new) (λ lrsn c. IsGreatest c lrsn) (λ v at c. IsBrokenAt c v at) result }
{
    match read_logs(alloc, disk)? {
        Found::Whole(logs) => Ok(greatest_among(logs.as_slice())),
        Found::Broken { member, at } => Err(CopyFault::Damaged {
            volume: Volume::Log(member),
            at,
        }),
    }
}
