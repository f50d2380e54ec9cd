ghost use Rattle.std.specs.Prelude.{◌≡◌, IfOk};
ghost use Rattle.std.specs.List.{AllByRecursion};
ghost use Rattle.ds_base.specs.Ids.{IsLrsn};
ghost use Rattle.ds_model.specs.declared.log.Version.TheVariants.{Two};
ghost use Rattle.ds_model.specs.RecordBytes.{ChangeFits, PatchesAreAllowed, Fits};

use ds_base::{Bytes, Lrsn, PageId, Place, TableId, Value};
use ds_model::{Body, LogRecord, Patch, Patches, RowChange, Version};
use log_record::{is_allowed, record_length, records_bytes, records_in};
use std::alloc::Global;
use std::test::Fail;

/// Row 10 of table 1 is set to `hello` in page 1, slot 0, by record 1 of transaction 1.
const CHANGE: [u8; 54] = [
    0, 0, 0, 0x36, 1, 2, 0, 0, 0, 0, 0, 0, 0, 0, 0, 1, 0, 0, 0, 0, 0, 0, 0, 0, 0, 1, 1, 0, 0, 0, 0,
    0, 0, 0, 10, 0, 0, 0, 1, 0, 0, 1, 0, 2, 5, 0x68, 0x65, 0x6c, 0x6c, 0x6f, 0, 0, 0, 0x36,
];

/// That record is undone by record 2.
const COMPENSATION: [u8; 64] = [
    0, 0, 0, 0x40, 2, 2, 0, 0, 0, 0, 0, 0, 0, 0, 0, 2, 0, 0, 0, 0, 0, 0, 0, 0, 0, 1, 1, 0, 0, 0, 0,
    0, 0, 0, 10, 0, 0, 0, 1, 0, 0, 2, 5, 0x68, 0x65, 0x6c, 0x6c, 0x6f, 1, 0, 0, 0, 0, 0, 0, 0, 0,
    0, 0, 1, 0, 0, 0, 0x40,
];

/// The last two bytes of page 7 of page set 2 are changed.
const SYSTEM: [u8; 43] = [
    0, 0, 0, 0x2b, 3, 2, 0, 0, 0, 0, 0, 0, 0, 0, 0, 3, 0, 0, 0, 0, 0, 0, 0, 0, 0, 0, 1, 0, 2, 0, 0,
    0, 7, 15, 0xfe, 0, 2, 0x68, 0x69, 0, 0, 0, 0x2b,
];

/// A Commit of transaction 5, numbered 5.
const COMMIT: [u8; 30] = [
    0, 0, 0, 0x1e, 4, 2, 0, 0, 0, 0, 0, 0, 0, 0, 0, 5, 0, 0, 0, 0, 0, 0, 0, 0, 0, 5, 0, 0, 0, 0x1e,
];

/// Transaction 1 has ended.
const ENDED: [u8; 30] = [
    0, 0, 0, 0x1e, 5, 2, 0, 0, 0, 0, 0, 0, 0, 0, 0, 5, 0, 0, 0, 0, 0, 0, 0, 0, 0, 1, 0, 0, 0, 0x1e,
];

/// The log is read from byte 256 on.
const CHECKPOINT: [u8; 38] = [
    0, 0, 0, 0x26, 6, 2, 0, 0, 0, 0, 0, 0, 0, 0, 0, 5, 0, 0, 0, 0, 0, 0, 0, 0, 0, 0, 0, 0, 0, 0, 0,
    0, 1, 0, 0, 0, 0, 0x26,
];

/// A restart has ended, where the counter was at its limit.
const RESTART_END: [u8; 30] = [
    0, 0, 0, 0x1e, 7, 2, 0xff, 0xff, 0xff, 0xff, 0xff, 0xff, 0xff, 0, 0, 0, 0, 0, 0, 0, 0, 0, 0, 0,
    0, 0, 0, 0, 0, 0x1e,
];

// The same in version 1, but for the last, where the counter was at the limit of that version.

const OLD_CHANGE: [u8; 46] = [
    0, 0, 0, 0x2e, 1, 1, 0, 0, 0, 0, 0, 1, 0, 0, 0, 0, 0, 1, 1, 0, 0, 0, 0, 0, 0, 0, 10, 0, 0, 0,
    1, 0, 0, 1, 0, 2, 5, 0x68, 0x65, 0x6c, 0x6c, 0x6f, 0, 0, 0, 0x2e,
];

const OLD_COMPENSATION: [u8; 52] = [
    0, 0, 0, 0x34, 2, 1, 0, 0, 0, 0, 0, 2, 0, 0, 0, 0, 0, 1, 1, 0, 0, 0, 0, 0, 0, 0, 10, 0, 0, 0,
    1, 0, 0, 2, 5, 0x68, 0x65, 0x6c, 0x6c, 0x6f, 1, 0, 0, 0, 0, 0, 0, 1, 0, 0, 0, 0x34,
];

const OLD_SYSTEM: [u8; 35] = [
    0, 0, 0, 0x23, 3, 1, 0, 0, 0, 0, 0, 3, 0, 0, 0, 0, 0, 0, 1, 0, 2, 0, 0, 0, 7, 0x0f, 0xfe, 0, 2,
    0x68, 0x69, 0, 0, 0, 0x23,
];

const OLD_COMMIT: [u8; 22] = [
    0, 0, 0, 0x16, 4, 1, 0, 0, 0, 0, 0, 5, 0, 0, 0, 0, 0, 5, 0, 0, 0, 0x16,
];

const OLD_ENDED: [u8; 22] = [
    0, 0, 0, 0x16, 5, 1, 0, 0, 0, 0, 0, 5, 0, 0, 0, 0, 0, 1, 0, 0, 0, 0x16,
];

const OLD_CHECKPOINT: [u8; 30] = [
    0, 0, 0, 0x1e, 6, 1, 0, 0, 0, 0, 0, 5, 0, 0, 0, 0, 0, 0, 0, 0, 0, 0, 0, 0, 1, 0, 0, 0, 0, 0x1e,
];

const OLD_RESTART_END: [u8; 22] = [
    0, 0, 0, 0x16, 7, 1, 0xff, 0xff, 0xff, 0, 0, 0, 0, 0, 0, 0, 0, 0, 0, 0, 0, 0x16,
];

fn lrsn(number: u128) -> Lrsn
    requires { IsLrsn number }
    ensures { result ≡ number }
{
    Lrsn::new(number).unwrap()
}

fn change(before: Option<Value>, after: Option<Value>) -> RowChange
    ensures { ChangeFits result }
{
    RowChange {
        table: TableId::new(1).unwrap(),
        key: 10,
        place: Place { page: 1, slot: 0 },
        before,
        after,
    }
}

fn patches(alloc: Global) -> Result<Patches, Fail>
    ensures { IfOk result (λ ps. PatchesAreAllowed ps) }
{
    let mut bytes = Bytes::new(alloc);
    bytes.extend(b"hi")?;
    let mut patches = Patches::new(alloc);
    patches.push(Patch {
        page: PageId { set: 2, number: 7 },
        offset: 4094,
        bytes,
    })?;
    Ok(patches)
}

/// The records of a transaction, its undoing, and a change of a page.
fn changes(alloc: Global) -> Result<[LogRecord; 3], Fail>
    ensures { IfOk result (λ rs. AllByRecursion Fits rs) }
{
    let hello = Value::new(alloc, b"hello")?;
    let change_record = LogRecord {
        version: Version::Two,
        lrsn: lrsn(1),
        tran: lrsn(1),
        body: Body::RowChange {
            change: change(None, hello),
        },
    };
    let compensation = LogRecord {
        version: Version::Two,
        lrsn: lrsn(2),
        tran: lrsn(1),
        body: Body::Compensation {
            change: change(hello, None),
            undone: lrsn(1),
        },
    };
    let system = LogRecord {
        version: Version::Two,
        lrsn: lrsn(3),
        tran: lrsn(0),
        body: Body::System {
            patches: patches(alloc)?,
        },
    };
    Ok([change_record, compensation, system])
}

fn record(number: u128, tran: u128, body: Body) -> LogRecord
    requires lrsn_in { IsLrsn number }
    requires tran_in { IsLrsn tran }
    ensures { result ≡ record { version = Two; lrsn = number; tran = tran; body = body } }
{
    LogRecord {
        version: Version::Two,
        lrsn: lrsn(number),
        tran: lrsn(tran),
        body,
    }
}

/// The records without a changed row or page.
fn ends() -> [LogRecord; 4]
    ensures { AllByRecursion Fits result }
{
    [
        record(5, 5, Body::Commit),
        record(5, 1, Body::Ended),
        record(5, 0, Body::Checkpoint { offset: 256 }),
        record(1_208_925_819_614_629_157_928_960, 0, Body::RestartEnd),
    ]
}

/// Whether the bytes are these, one behind the other.
fn are_joined(bytes: &[u8], parts: &[&[u8]]) -> bool {
    let mut rest = bytes;
    for part in parts {
        match rest.strip_prefix(*part) {
            Some(more) => rest = more,
            None => return false,
        }
    }
    rest.is_empty()
}

/// A log of these bytes, one behind the other.
fn joined(alloc: Global, parts: &[&[u8]]) -> Result<Bytes, Fail> {
    let mut log = Bytes::new(alloc);
    for part in parts {
        log.extend(*part)?;
    }
    Ok(log)
}

fn are_allowed(records: &[LogRecord]) -> bool {
    for record in records {
        if !is_allowed(record) {
            return false;
        }
    }
    true
}

fn changes_are_written(alloc: Global) -> Result<bool, Fail> {
    let changes = changes(alloc)?;
    let bytes = records_bytes(alloc, &changes)?;
    Ok(
        record_length(&changes[2]) == SYSTEM.len()
            && are_joined(bytes.as_slice(), &[&CHANGE, &COMPENSATION, &SYSTEM]),
    )
}

fn ends_are_written(alloc: Global) -> Result<bool, Fail> {
    let bytes = records_bytes(alloc, &ends())?;
    Ok(are_joined(
        bytes.as_slice(),
        &[&COMMIT, &ENDED, &CHECKPOINT, &RESTART_END],
    ))
}

/// Whether so many records that are allowed, of so many bytes, are read in the log.
fn are_read(alloc: Global, log: &Bytes, count: usize, bytes: usize) -> Result<bool, Fail> {
    let (found, length) = records_in(alloc, log.as_slice())?;
    Ok(found.len() == count && length == bytes && are_allowed(found.as_slice()))
}

#[test]
fn each_kind_has_its_bytes_and_is_read(rt: HostRuntime) -> Result<(), Fail> {
    let alloc = rt.alloc();
    assert!(rt; changes_are_written(alloc)?);
    assert!(rt; ends_are_written(alloc)?);
    let front = &CHANGE[..45];
    let log = joined(alloc, &[&COMMIT, &ENDED, &CHECKPOINT, &RESTART_END, front])?;
    assert!(rt; are_read(alloc, &log, 4, 128)?);
    Ok(())
}

/// A log with records of both versions, the whole of it.
fn mixed_log(alloc: Global) -> Result<Bytes, Fail> {
    joined(
        alloc,
        &[
            &OLD_CHANGE,
            &COMMIT,
            &OLD_COMPENSATION,
            &OLD_SYSTEM,
            &ENDED,
            &OLD_COMMIT,
            &OLD_ENDED,
            &OLD_CHECKPOINT,
            &OLD_RESTART_END,
        ],
    )
}

/// The numbers of those records, and whether they are of version 1.
const MIXED: [(u128, bool); 9] = [
    (1, true),
    (5, false),
    (2, true),
    (3, true),
    (5, false),
    (5, true),
    (5, true),
    (5, true),
    (281_474_959_933_440, true),
];

/// Whether the records have these numbers and versions.
fn are_numbered(records: &[LogRecord], numbers: &[(u128, bool)]) -> bool {
    for (at, record) in records.iter().enumerate() {
        let is_old = record.version == Version::One;
        if numbers.get(at).copied() != Some((record.lrsn.number(), is_old)) {
            return false;
        }
    }
    records.len() == numbers.len()
}

#[test]
fn both_versions_are_read_from_one_log(rt: HostRuntime) -> Result<(), Fail> {
    let log = mixed_log(rt.alloc())?;
    let (found, length) = records_in(rt.alloc(), log.as_slice())?;
    assert!(rt; length == log.len());
    assert!(rt; are_allowed(found.as_slice()) && are_numbered(found.as_slice(), &MIXED));
    Ok(())
}
