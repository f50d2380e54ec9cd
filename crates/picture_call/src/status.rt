ghost use Rattle.std.specs.Prelude.{◌≡◌, ◌++◌, OnOk, IfOk, decimal};
ghost use Rattle.picture_call.specs.Statuses as spec;
ghost use Rattle.picture_call.specs.declared.status.Status.TheVariants as status;

use ds_base::{Bytes, NoMemory};
use std::alloc::Global;

/// How a call ended.
#[derive(Clone, Copy, Debug, PartialEq, Eq)]
pub enum Status {
    /// The picture, or the story, was written.
    Done,
    /// The words are no order.
    WordsRefused,
    /// The first line of the source that may not stand in a report where it does.
    ReportRefused { line: u32 },
    /// The text in front of the report is no script: its first line that may not stand in one where it does.
    ScriptRefused { line: u32 },
    /// The event at this place isn't what the trace says of it, where the script is played by a group of these sizes over an empty folder.
    NotOfScript { place: u64 },
    /// The report has no events: it was printed without `--trace`.
    NoTrace,
    /// The report has no transaction of this name.
    NoTransaction,
    /// A read of the source failed.
    SourceFailed,
    /// A write to the sink failed.
    SinkFailed,
    /// Memory was wanting.
    NoMemory,
}

impl Status {
    /// The program's exit status.
    pub fn number(&self) -> u8
        ensures { result ≡ spec.number_of self.now }
    {
        match self {
            Status::Done => 0,
            Status::WordsRefused => 1,
            Status::ReportRefused { .. }
            | Status::ScriptRefused { .. }
            | Status::NotOfScript { .. }
            | Status::NoTrace
            | Status::NoTransaction => 2,
            Status::SourceFailed => 3,
            Status::SinkFailed => 4,
            Status::NoMemory => 6,
        }
    }
}

fn put_number(alloc: Global, out: &mut Bytes, text: &[u8], number: u64) -> Result<(), NoMemory>
    ensures { OnOk result (out.new ≡ out.old ++ (text.now ++ decimal number)) }
{
    out.extend(text)?;
    out.extend_number(alloc, number)
}

#[tactic(auto, unfolding(crate::specs::Statuses::place_text))]
fn put_place(alloc: Global, out: &mut Bytes, line: u32) -> Result<(), NoMemory>
    ensures { OnOk result (out.new ≡ out.old ++ spec.place_text line) }
{
    put_number(alloc, out, b"report refused line ", line as u64)
}

fn put_refused(alloc: Global, out: &mut Bytes, line: u32) -> Result<(), NoMemory>
    ensures { OnOk result (out.new ≡ out.old ++ spec.refused_text line) }
{
    put_place(alloc, out, line)?;
    out.extend(b"\n")
}

#[tactic(auto, unfolding(crate::specs::Statuses::script_place_text))]
fn put_script_place(alloc: Global, out: &mut Bytes, line: u32) -> Result<(), NoMemory>
    ensures { OnOk result (out.new ≡ out.old ++ spec.script_place_text line) }
{
    put_number(alloc, out, b"script refused line ", line as u64)
}

fn put_script_refused(alloc: Global, out: &mut Bytes, line: u32) -> Result<(), NoMemory>
    ensures { OnOk result (out.new ≡ out.old ++ spec.status_text (status.ScriptRefused line)) }
{
    put_script_place(alloc, out, line)?;
    out.extend(b"\n")
}

#[tactic(auto, unfolding(crate::specs::Statuses::parting_text))]
fn put_parting(alloc: Global, out: &mut Bytes, place: u64) -> Result<(), NoMemory>
    ensures { OnOk result (out.new ≡ out.old ++ spec.parting_text place) }
{
    put_number(alloc, out, b"trace not of script from event ", place)
}

fn put_parted(alloc: Global, out: &mut Bytes, place: u64) -> Result<(), NoMemory>
    ensures { OnOk result (out.new ≡ out.old ++ spec.status_text (status.NotOfScript place)) }
{
    put_parting(alloc, out, place)?;
    out.extend(b"\n")
}

/// The text of a status without a picture.
pub fn status_text(alloc: Global, status: Status) -> Result<Bytes, NoMemory>
    ensures { IfOk result (λ text. text ≡ spec.status_text status) }
{
    let mut out = Bytes::new(alloc);
    match status {
        Status::WordsRefused => out.extend(b"words refused\n")?,
        Status::ReportRefused { line } => put_refused(alloc, &mut out, line)?,
        Status::ScriptRefused { line } => put_script_refused(alloc, &mut out, line)?,
        Status::NotOfScript { place } => put_parted(alloc, &mut out, place)?,
        Status::NoTrace => out.extend(b"no trace\n")?,
        Status::NoTransaction => out.extend(b"no transaction\n")?,
        Status::SourceFailed => out.extend(b"source failed\n")?,
        Status::Done | Status::SinkFailed | Status::NoMemory => {}
    }
    Ok(out)
}
