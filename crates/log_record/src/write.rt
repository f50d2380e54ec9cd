ghost use Rattle.std.specs.Prelude.{◌≡◌, ◌+◌, ◌≤◌, ◌∷◌, ◌++◌, length, take, OnOk, OnErr, IfOk};
ghost use Rattle.std.specs.List.{flat_map, AllByRecursion};
ghost use Rattle.log_record.specs.Kept.{SameFrom};
ghost use Rattle.log_record.specs.Parts.{page_bytes, head_bytes};
ghost use Rattle.ds_model.specs.declared.log.Version.TheVariants as version;
ghost use Rattle.ds_model.specs.RecordBytes.{state_bytes, row_bytes, change_bytes, patch_bytes, lrsn_bytes, kind_of, body_bytes, spelling, record_bytes, log_bytes, patch_limit, PatchIsAllowed, PatchesAreAllowed, BodyFits, IsAllowed, Fits};

use crate::allowed::is_allowed;
use crate::layout::LONGEST;
use crate::put::put;
use crate::size::{LONGEST_WITHOUT_PATCHES, record_length, written_length};
use ds_base::{Bytes, LRSN_WIDTH, Lrsn, NoMemory, PageId, Value};
use ds_model::{Body, LogRecord, Patch, RowChange};
use std::alloc::Global;

// The version in which records are written.
const VERSION: u8 = 2;

fn put_state(into: &mut [u8], at: usize, state: &Option<Value>) -> usize
    requires { at + length (state_bytes state.now) ≤ length into.old }
    ensures next { result ≡ at + length (state_bytes state.now) }
    ensures front { take result into.new ≡ take at into.old ++ state_bytes state.now }
    ensures back { SameFrom result into.old into.new }
{
    match state {
        None => put(into, at, &[1, 0]),
        Some(value) => {
            let bytes = value.bytes();
            let at = put(into, at, &[2, bytes.len() as u8]);
            put(into, at, bytes)
        }
    }
}

fn put_row(into: &mut [u8], at: usize, change: &RowChange) -> usize
    requires { at + 15 ≤ length into.old }
    ensures next { result ≡ at + 15 }
    ensures front { take result into.new ≡ take at into.old ++ row_bytes change.now }
    ensures back { SameFrom result into.old into.new }
{
    let at = put(into, at, &[change.table.number() as u8]);
    let at = put(into, at, &change.key.to_be_bytes());
    let at = put(into, at, &change.place.page.to_be_bytes());
    put(into, at, &change.place.slot.to_be_bytes())
}

fn put_change(into: &mut [u8], at: usize, change: &RowChange) -> usize
    requires { at + length (change_bytes change.now) ≤ length into.old }
    ensures next { result ≡ at + length (change_bytes change.now) }
    ensures front { take result into.new ≡ take at into.old ++ change_bytes change.now }
    ensures back { SameFrom result into.old into.new }
{
    let at = put_row(into, at, change);
    let at = put_state(into, at, &change.before);
    put_state(into, at, &change.after)
}

fn put_page(into: &mut [u8], at: usize, page: PageId) -> usize
    requires { at + 6 ≤ length into.old }
    ensures next { result ≡ at + 6 }
    ensures front { take result into.new ≡ take at into.old ++ page_bytes page }
    ensures back { SameFrom result into.old into.new }
{
    let at = put(into, at, &page.set.to_be_bytes());
    put(into, at, &page.number.to_be_bytes())
}

fn put_patch(into: &mut [u8], at: usize, patch: &Patch) -> usize
    requires room { at + length (patch_bytes patch.now) ≤ length into.old }
    requires few { length patch.now.bytes ≤ patch_limit }
    ensures next { result ≡ at + length (patch_bytes patch.now) }
    ensures front { take result into.new ≡ take at into.old ++ patch_bytes patch.now }
    ensures back { SameFrom result into.old into.new }
{
    let at = put_page(into, at, patch.page);
    let at = put(into, at, &patch.offset.to_be_bytes());
    let at = put(into, at, &(patch.bytes.len() as u16).to_be_bytes());
    put(into, at, patch.bytes.as_slice())
}

fn put_patches(into: &mut [u8], start: usize, patches: &[Patch]) -> usize
    requires room { start + length (flat_map patch_bytes patches.now) ≤ length into.old }
    requires each { AllByRecursion PatchIsAllowed patches.now }
    ensures next { result ≡ start + length (flat_map patch_bytes patches.now) }
    ensures front { take result into.new ≡ take start into.old ++ flat_map patch_bytes patches.now }
    ensures back { SameFrom result into.old into.new }
{
    let mut at = start;
    for patch in patches {
        at = put_patch(into, at, patch);
    }
    at
}

fn put_system(into: &mut [u8], at: usize, patches: &[Patch]) -> usize
    requires room { at + 1 + length (flat_map patch_bytes patches.now) ≤ length into.old }
    requires allowed { PatchesAreAllowed patches.now }
    ensures next { result ≡ at + 1 + length (flat_map patch_bytes patches.now) }
    ensures front { take result into.new ≡ take at into.old ++ length patches.now ∷ flat_map patch_bytes patches.now }
    ensures back { SameFrom result into.old into.new }
{
    let at = put(into, at, &[patches.len() as u8]);
    put_patches(into, at, patches)
}

fn put_lrsn(into: &mut [u8], at: usize, lrsn: Lrsn) -> usize
    requires { at + 10 ≤ length into.old }
    ensures next { result ≡ at + 10 }
    ensures front { take result into.new ≡ take at into.old ++ lrsn_bytes version.Two lrsn }
    ensures back { SameFrom result into.old into.new }
{
    let number = lrsn.number().to_be_bytes();
    put(into, at, &number[number.len() - LRSN_WIDTH as usize..])
}

fn put_compensation(into: &mut [u8], at: usize, change: &RowChange, undone: Lrsn) -> usize
    requires { at + length (change_bytes change.now) + 10 ≤ length into.old }
    ensures next { result ≡ at + length (change_bytes change.now) + 10 }
    ensures front { take result into.new ≡ take at into.old ++ (change_bytes change.now ++ lrsn_bytes version.Two undone) }
    ensures back { SameFrom result into.old into.new }
{
    let at = put_change(into, at, change);
    put_lrsn(into, at, undone)
}

fn put_body(into: &mut [u8], at: usize, body: &Body) -> usize
    requires room { at + length (body_bytes version.Two body.now) ≤ length into.old }
    requires fits { BodyFits version.Two body.now }
    ensures next { result ≡ at + length (body_bytes version.Two body.now) }
    ensures front { take result into.new ≡ take at into.old ++ body_bytes version.Two body.now }
    ensures back { SameFrom result into.old into.new }
{
    match body {
        Body::RowChange { change } => put_change(into, at, change),
        Body::Compensation { change, undone } => put_compensation(into, at, change, *undone),
        Body::System { patches } => put_system(into, at, patches.as_slice()),
        Body::Checkpoint { offset } => put(into, at, &offset.to_be_bytes()),
        Body::Commit | Body::Ended | Body::RestartEnd => at,
    }
}

fn kind_number(body: &Body) -> u8
    ensures { result ≡ kind_of body.now }
{
    match body {
        Body::RowChange { .. } => 1,
        Body::Compensation { .. } => 2,
        Body::System { .. } => 3,
        Body::Commit => 4,
        Body::Ended => 5,
        Body::Checkpoint { .. } => 6,
        Body::RestartEnd => 7,
    }
}

// The kind, the version, the number and the transaction.
fn put_head(into: &mut [u8], at: usize, it: &LogRecord) -> usize
    requires { at + 22 ≤ length into.old }
    ensures next { result ≡ at + 22 }
    ensures front { take result into.new ≡ take at into.old ++ head_bytes it.now }
    ensures back { SameFrom result into.old into.new }
{
    let at = put(into, at, &[kind_number(&it.body), VERSION]);
    let at = put_lrsn(into, at, it.lrsn);
    put_lrsn(into, at, it.tran)
}

// Writes the number, the transaction and the body of a record in version 2.
#[tactic(auto, unfolding(ds_model::specs::RecordBytes::spelling))]
fn write_fields(it: &LogRecord, into: &mut [u8]) -> usize
    requires fits { BodyFits version.Two it.now.body }
    requires room { length (spelling version.Two it.now.lrsn it.now.tran it.now.body) ≤ length into.old }
    ensures bytes { take result into.new ≡ spelling version.Two it.now.lrsn it.now.tran it.now.body }
    ensures count { result ≡ length (spelling version.Two it.now.lrsn it.now.tran it.now.body) }
    ensures rest { SameFrom result into.old into.new }
{
    let length = (written_length(&it.body) as u32).to_be_bytes();
    let at = put(into, 0, &length);
    let at = put_head(into, at, it);
    let at = put_body(into, at, &it.body);
    put(into, at, &length)
}

/// Writes the record, which is of version 2, at the front of the buffer, and answers its length.
#[tactic(auto, using(crate::proofs::Records::as_written, crate::proofs::Records::body_written))]
pub fn write_record(it: &LogRecord, into: &mut [u8]) -> usize
    requires fits { Fits it.now }
    requires room { length (record_bytes it.now) ≤ length into.old }
    ensures bytes { take result into.new ≡ record_bytes it.now }
    ensures count { result ≡ length (record_bytes it.now) }
    ensures rest { SameFrom result into.old into.new }
    ensures allowed { IsAllowed it.now }
{
    prove!(is_allowed(it));
    write_fields(it, into)
}

// Adds the bytes of a record for which the buffer has room.
fn put_through(out: &mut Bytes, it: &LogRecord, buffer: &mut [u8]) -> Result<(), NoMemory>
    requires fits { Fits it.now }
    requires room { length (record_bytes it.now) ≤ length buffer.old }
    ensures ok { OnOk result (out.new ≡ out.old ++ record_bytes it.now) }
    ensures err { OnErr result (out.new ≡ out.old) }
    ensures allowed { IsAllowed it.now }
{
    let length = write_record(it, buffer);
    out.extend(&buffer[..length])
}

// The large buffer is made for records with patches alone.
fn put_long(out: &mut Bytes, it: &LogRecord) -> Result<(), NoMemory>
    requires fits { Fits it.now }
    requires room { length (record_bytes it.now) ≤ 16384 }
    ensures ok { OnOk result (out.new ≡ out.old ++ record_bytes it.now) }
    ensures err { OnErr result (out.new ≡ out.old) }
    ensures allowed { IsAllowed it.now }
{
    let mut buffer = [0u8; LONGEST];
    put_through(out, it, &mut buffer)
}

/// Adds the bytes of the record.
pub fn put_record(out: &mut Bytes, it: &LogRecord) -> Result<(), NoMemory>
    requires fits { Fits it.now }
    ensures ok { OnOk result (out.new ≡ out.old ++ record_bytes it.now) }
    ensures err { OnErr result (out.new ≡ out.old) }
    ensures allowed { IsAllowed it.now }
{
    if LONGEST_WITHOUT_PATCHES < record_length(it) {
        return put_long(out, it);
    }
    let mut buffer = [0u8; LONGEST_WITHOUT_PATCHES];
    put_through(out, it, &mut buffer)
}

/// The bytes of these records, one after another.
pub fn records_bytes(alloc: Global, records: &[LogRecord]) -> Result<Bytes, NoMemory>
    requires { AllByRecursion Fits records.now }
    ensures bytes { IfOk result (λ bytes. bytes ≡ log_bytes records.now) }
    ensures allowed { OnOk result (AllByRecursion IsAllowed records.now) }
{
    let mut out = Bytes::new(alloc);
    for record in records {
        put_record(&mut out, record)?;
    }
    Ok(out)
}
