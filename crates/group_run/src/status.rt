ghost use Rattle.std.specs.Prelude.{◌≡◌, ℕ, ◌++◌, OnOk, IfOk, decimal};
ghost use Rattle.group_run.specs.Statuses.{kind_word, place_text, fault_text, volume_text, damage_text, check_text, short_text};

use disk_orders::{Breach, put_breach, put_image, put_recovered, put_sound};
use ds_base::{Bytes, NoMemory, TableId, Volume};
use ds_model::{FaultKind, ScriptFault};
use std::alloc::Global;

/// How a call ended.
#[derive(Clone, Copy, Debug, PartialEq, Eq)]
pub enum Status {
    /// The report was written, and no call of the disk failed.
    Done,
    /// The words are no order.
    WordsRefused,
    /// A line of the source makes it no script.
    ScriptRefused(ScriptFault),
    /// A read of the source failed.
    SourceFailed,
    /// A write to the sink failed.
    SinkFailed,
    /// A call of the disk failed.
    DiskFailed,
    /// Memory was wanting.
    NoMemory,
    /// The byte of a page or a log at this offset can't stand there.
    Damaged { volume: Volume, at: u64 },
    /// The disk was checked, and is sound: so many pages aren't all zeros, and the logs stand for so many rows.
    Sound { pages: u64, rows: u64 },
    /// The disk was checked. This is the first clause of a sound disk that doesn't hold, and its first spot.
    Unsound(Breach),
    /// The table was recovered from an image; so many pages were written that aren't all zeros.
    Recovered { table: TableId, pages: u64 },
    /// The source is no image of the table for this disk. The field that begins at this byte can't stand there, or the image ends there and
    /// should not, or should end there and does not.
    ImageRefused { at: u64 },
    /// What was wanted in this event may not be done; or, where it is 0, the report isn't sound. It is a defect of the program,
    /// or of a disk that doesn't give back what was written.
    SelfCheckFailed { event: u64 },
}

impl Status {
    ghost use Rattle.group_run.specs.Statuses.{number_of};

    /// The number that a report ends with, and the program's exit status.
    pub fn number(&self) -> u8
        ensures { result ≡ number_of self.now }
    {
        match self {
            Status::Done | Status::Sound { .. } | Status::Recovered { .. } => 0,
            Status::WordsRefused => 1,
            Status::ScriptRefused(_) => 2,
            Status::SourceFailed => 3,
            Status::SinkFailed => 4,
            Status::DiskFailed => 5,
            Status::NoMemory => 6,
            Status::Damaged { .. } => 7,
            Status::ImageRefused { .. } => 9,
            Status::Unsound(_) => 10,
            Status::SelfCheckFailed { .. } => 11,
        }
    }
}

// The word for what is wrong with a line.
fn word_of(kind: FaultKind) -> &'static [u8]
    ensures { result.now ≡ kind_word kind }
{
    match kind {
        FaultKind::TooLong => b"too-long",
        FaultKind::Word => b"word",
        FaultKind::Number => b"number",
        FaultKind::Value => b"value",
        FaultKind::Member => b"member",
        FaultKind::Name => b"name",
        FaultKind::Restart => b"restart",
        FaultKind::Flag => b"flag",
        FaultKind::End => b"end",
    }
}

fn put_number(alloc: Global, out: &mut Bytes, text: &[u8], number: u64) -> Result<(), NoMemory>
    ensures { OnOk result (out.new ≡ out.old ++ (text.now ++ decimal number)) }
{
    out.extend(text)?;
    out.extend_number(alloc, number)
}

#[tactic(auto, unfolding(crate::specs::Statuses::place_text))]
fn put_place(alloc: Global, out: &mut Bytes, number: u32) -> Result<(), NoMemory>
    ensures { OnOk result (out.new ≡ out.old ++ place_text number) }
{
    put_number(alloc, out, b"script refused line ", number as u64)
}

fn put_fault(alloc: Global, out: &mut Bytes, fault: ScriptFault) -> Result<(), NoMemory>
    ensures { OnOk result (out.new ≡ out.old ++ fault_text fault) }
{
    put_place(alloc, out, fault.line)?;
    out.extend(b" ")?;
    out.extend(word_of(fault.kind))?;
    out.extend(b"\n")
}

#[tactic(auto, unfolding(crate::specs::Statuses::volume_text))]
fn put_volume(alloc: Global, out: &mut Bytes, volume: &Volume) -> Result<(), NoMemory>
    ensures { OnOk result (out.new ≡ out.old ++ volume_text volume.now) }
{
    match volume {
        Volume::Log(member) => put_number(alloc, out, b"damaged log M", member.number()),
        Volume::Page(id) => {
            put_number(alloc, out, b"damaged page ", id.set as u64)?;
            put_number(alloc, out, b" ", id.number as u64)
        }
    }
}

fn put_damage(alloc: Global, out: &mut Bytes, volume: &Volume, at: u64) -> Result<(), NoMemory>
    ensures { OnOk result (out.new ≡ out.old ++ damage_text volume.now at) }
{
    put_volume(alloc, out, volume)?;
    put_number(alloc, out, b" at ", at)?;
    out.extend(b"\n")
}

#[tactic(auto, unfolding(crate::specs::Statuses::check_text))]
fn put_check(alloc: Global, out: &mut Bytes, event: u64) -> Result<(), NoMemory>
    ensures { OnOk result (out.new ≡ out.old ++ check_text event) }
{
    put_number(alloc, out, b"self check failed at ", event)?;
    out.extend(b"\n")
}

// The text of a status that is always the same.
fn fixed_text(status: &Status) -> &'static [u8]
    requires unrefused { (f : ScriptFault) → status.now ≡ Status.ScriptRefused f → ⊥ }
    requires undamaged { (v : Volume) (at : ℕ) → status.now ≡ Status.Damaged v at → ⊥ }
    requires sound { (pages rows : ℕ) → status.now ≡ Status.Sound pages rows → ⊥ }
    requires whole { (breach : Breach) → status.now ≡ Status.Unsound breach → ⊥ }
    requires remade { (table pages : ℕ) → status.now ≡ Status.Recovered table pages → ⊥ }
    requires taken { (at : ℕ) → status.now ≡ Status.ImageRefused at → ⊥ }
    requires checked { (event : ℕ) → status.now ≡ Status.SelfCheckFailed event → ⊥ }
    ensures { result.now ≡ short_text status.now }
{
    match status {
        Status::WordsRefused => b"words refused\n",
        Status::SourceFailed => b"source failed\n",
        Status::DiskFailed => b"disk failed\n",
        Status::Done
        | Status::SinkFailed
        | Status::NoMemory
        | Status::ScriptRefused(_)
        | Status::Damaged { .. }
        | Status::Sound { .. }
        | Status::Unsound(_)
        | Status::Recovered { .. }
        | Status::ImageRefused { .. }
        | Status::SelfCheckFailed { .. } => b"",
    }
}

/// The text of a status without a report.
pub fn text_of(alloc: Global, status: &Status) -> Result<Bytes, NoMemory>
    ensures { IfOk result (λ text. text ≡ short_text status.now) }
{
    let mut out = Bytes::new(alloc);
    match status {
        Status::ScriptRefused(fault) => put_fault(alloc, &mut out, *fault)?,
        Status::Damaged { volume, at } => put_damage(alloc, &mut out, volume, *at)?,
        Status::Sound { pages, rows } => put_sound(alloc, &mut out, *pages, *rows)?,
        Status::Unsound(breach) => put_breach(alloc, &mut out, breach)?,
        Status::Recovered { table, pages } => put_recovered(alloc, &mut out, *table, *pages)?,
        Status::ImageRefused { at } => put_image(alloc, &mut out, *at)?,
        Status::SelfCheckFailed { event } => put_check(alloc, &mut out, *event)?,
        other => out.extend(fixed_text(other))?,
    }
    Ok(out)
}
