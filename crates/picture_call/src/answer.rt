//! What is written for an order over the bytes of a report.

ghost use Rattle.std.specs.Prelude.{◌≡◌, ℕ, List, ◌++◌, ◌<◌, ◌≤◌, true, false, length, drop, Ok, Err, Some, IfOk};
ghost use Rattle.ds_base.specs.declared.names.Sizes.{Sizes as AnySizes};
ghost use Rattle.ds_model.specs.declared.report.Report.{Report as AnyReport};
ghost use Rattle.group_words.specs.Orders.{AreSizes};
ghost use Rattle.report_text.specs.Steps.{report_of};
ghost use Rattle.run_picture.specs.declared.cut.Cut.{Cut as AnyCut};
ghost use Rattle.ds_model.specs.declared.script.Script.{Script as AnyScript};
ghost use Rattle.ds_model.specs.declared.script.ScriptFault.{ScriptFault as AnyFault};
ghost use Rattle.run_replay.specs.Beginning.{IsUntold};
ghost use Rattle.run_story.specs.Names.{has_name, number_named as number_in};
ghost use Rattle.run_story.specs.Stories.{story_named};
ghost use Rattle.script_text.specs.Reading.{script_of};
ghost use Rattle.picture_call.specs.Calls.{Answered, AnsweredBy, IsDrawn, IsNamed, IsUnhindered, ToldBy, ToldOf, report_part};
ghost use Rattle.picture_call.specs.Statuses as spec;
ghost use Rattle.picture_call.specs.declared.order.Order.TheVariants as orders;
ghost use Rattle.picture_call.specs.declared.status.Status.TheVariants as status;

use crate::input::report_begin;
use crate::order::Order;
use crate::status::{Status, status_text};
use crate::style::style;
use ds_base::{Bytes, NoMemory, Sizes};
use ds_model::{Report, Script};
use picture_text::write_picture;
use report_text::{ReportError, read_report};
use run_picture::{Cut, picture_of};
use run_replay::{ReplayFault, replay};
use run_story::story_of;
use script_text::{ScriptError, read_script};
use std::alloc::Global;

/// A status, and the text that is written for it.
#[derive(Debug, Drop)]
pub struct Telling {
    pub status: Status,
    pub text: Bytes,
}

/// A status without a picture.
pub fn short_telling(alloc: Global, status: Status) -> Result<Telling, NoMemory>
    ensures exact { IfOk result (λ t. (t.status ≡ status) × (t.text ≡ spec.status_text status)) }
    ensures named { IfOk result (λ t. IsNamed t.status t.text) }
{
    Ok(Telling {
        status,
        text: status_text(alloc, status)?,
    })
}

fn told(text: Bytes) -> Telling
    ensures { (result.status ≡ status.Done) × (result.text ≡ text) }
{
    Telling {
        status: Status::Done,
        text,
    }
}

fn draw(alloc: Global, report: &Report, cut: &Cut) -> Result<Bytes, NoMemory>
    ensures { IfOk result (λ text. IsDrawn cut.now report.now text) }
{
    let picture = picture_of(alloc, report, cut)?;
    write_picture(alloc, style(), &picture)
}

// A story, and behind it what was seen in a replay.
fn with_seen(story: Bytes, seen: &[u8]) -> Result<Telling, NoMemory>
    ensures done { IfOk result (λ t. t.status ≡ status.Done) }
    ensures whole { IfOk result (λ t. t.text ≡ story ++ seen.now) }
{
    let mut text = story;
    text.extend(seen)?;
    Ok(told(text))
}

// Why a replay tells nothing.
fn untold(alloc: Global, fault: ReplayFault) -> Result<Telling, NoMemory>
    ensures told { (script : AnyScript) (report : AnyReport) (name : List ℕ) → IsUntold script report.trace.events name fault → IfOk result (λ t. ToldOf script report name t.status t.text) }
    ensures named { IfOk result (λ t. IsNamed t.status t.text) }
    ensures unhindered { IfOk result (λ t. IsUnhindered t.status) }
{
    match fault {
        ReplayFault::NoMemory => Err(NoMemory),
        ReplayFault::NoTransaction => short_telling(alloc, Status::NoTransaction),
        ReplayFault::Parted { place } => short_telling(alloc, Status::NotOfScript { place }),
    }
}

// What the script tells beside the story, where it is that of the trace.
fn tell_replay(
    alloc: Global,
    sizes: &Sizes,
    name: &[u8],
    script: &Script,
    report: &Report,
    story: Bytes,
) -> Result<Telling, NoMemory>
    requires sizes { AreSizes sizes.now }
    requires story { story_named report.now (number_in name.now report.now.entries) ≡ Some story }
    ensures told { IfOk result (λ t. ToldOf script.now report.now name.now t.status t.text) }
    ensures named { IfOk result (λ t. IsNamed t.status t.text) }
    ensures unhindered { IfOk result (λ t. IsUnhindered t.status) }
{
    match replay(alloc, script, sizes, report.trace.events.as_slice(), name) {
        Ok(seen) => with_seen(story, seen.as_slice()),
        Err(fault) => untold(alloc, fault),
    }
}

// What the text of a script tells beside the story.
fn tell_script(
    alloc: Global,
    sizes: &Sizes,
    name: &[u8],
    script: &[u8],
    report: &Report,
    story: Bytes,
) -> Result<Telling, NoMemory>
    requires sizes { AreSizes sizes.now }
    requires story { story_named report.now (number_in name.now report.now.entries) ≡ Some story }
    ensures refused { (f : AnyFault) → script_of sizes.now.members script.now ≡ Err f → IfOk result (λ t. t.status ≡ status.ScriptRefused f.line) }
    ensures read { (s : AnyScript) → script_of sizes.now.members script.now ≡ Ok s → IfOk result (λ t. ToldOf s report.now name.now t.status t.text) }
    ensures named { IfOk result (λ t. IsNamed t.status t.text) }
    ensures unhindered { IfOk result (λ t. IsUnhindered t.status) }
{
    match read_script(alloc, script, sizes.members) {
        Err(ScriptError::NoMemory) => Err(NoMemory),
        Err(ScriptError::Fault(fault)) => {
            short_telling(alloc, Status::ScriptRefused { line: fault.line })
        }
        Ok(script) => tell_replay(alloc, sizes, name, &script, report, story),
    }
}

// The story of a transaction, and what a script tells beside it, if one is given.
fn tell_beside(
    alloc: Global,
    sizes: &Sizes,
    name: &[u8],
    script: &[u8],
    report: &Report,
    story: Bytes,
) -> Result<Telling, NoMemory>
    requires sizes { AreSizes sizes.now }
    requires story { story_named report.now (number_in name.now report.now.entries) ≡ Some story }
    ensures told { IfOk result (λ t. ToldBy sizes.now.members script.now report.now name.now t.status t.text) }
    ensures named { IfOk result (λ t. IsNamed t.status t.text) }
    ensures unhindered { IfOk result (λ t. IsUnhindered t.status) }
{
    if script.is_empty() {
        return Ok(told(story));
    }
    tell_script(alloc, sizes, name, script, report, story)
}

// What is told of a transaction by the report, and by a script if one is given.
fn tell_story(
    alloc: Global,
    sizes: &Sizes,
    name: &[u8],
    script: &[u8],
    report: &Report,
) -> Result<Telling, NoMemory>
    requires { AreSizes sizes.now }
    ensures unknown { has_name name.now report.now.entries ≡ false → IfOk result (λ t. t.status ≡ status.NoTransaction) }
    ensures told { has_name name.now report.now.entries ≡ true → IfOk result (λ t. ToldBy sizes.now.members script.now report.now name.now t.status t.text) }
    ensures named { IfOk result (λ t. IsNamed t.status t.text) }
    ensures unhindered { IfOk result (λ t. IsUnhindered t.status) }
{
    match story_of(alloc, report, name)? {
        None => short_telling(alloc, Status::NoTransaction),
        Some(story) => tell_beside(alloc, sizes, name, script, report, story),
    }
}

fn tell_report(
    alloc: Global,
    order: Order,
    name: &[u8],
    script: &[u8],
    report: &Report,
) -> Result<Telling, NoMemory>
    requires { (s : AnySizes) → order ≡ orders.Why s → AreSizes s }
    ensures untraced { length report.now.trace.events ≡ 0 → IfOk result (λ t. t.status ≡ status.NoTrace) }
    ensures unknown { (s : AnySizes) → order ≡ orders.Why s → 0 < length report.now.trace.events → has_name name.now report.now.entries ≡ false → IfOk result (λ t. t.status ≡ status.NoTransaction) }
    ensures told { (s : AnySizes) → order ≡ orders.Why s → 0 < length report.now.trace.events → has_name name.now report.now.entries ≡ true → IfOk result (λ t. ToldBy s.members script.now report.now name.now t.status t.text) }
    ensures drawn { (cut : AnyCut) → order ≡ orders.Draw cut → 0 < length report.now.trace.events → IfOk result (λ t. (t.status ≡ status.Done) × IsDrawn cut report.now t.text) }
    ensures named { IfOk result (λ t. IsNamed t.status t.text) }
    ensures unhindered { IfOk result (λ t. IsUnhindered t.status) }
{
    if report.trace.events.is_empty() {
        return short_telling(alloc, Status::NoTrace);
    }
    match order {
        Order::Draw(cut) => Ok(told(draw(alloc, report, &cut)?)),
        Order::Why(sizes) => tell_story(alloc, &sizes, name, script, report),
    }
}

// What is written for an order over this script and the bytes of a report.
fn answer_parts(
    alloc: Global,
    order: Order,
    name: &[u8],
    script: &[u8],
    report: &[u8],
) -> Result<Telling, NoMemory>
    requires { (s : AnySizes) → order ≡ orders.Why s → AreSizes s }
    ensures answered { IfOk result (λ t. AnsweredBy order name.now script.now report.now t.status t.text) }
    ensures named { IfOk result (λ t. IsNamed t.status t.text) }
    ensures unhindered { IfOk result (λ t. IsUnhindered t.status) }
{
    match read_report(alloc, report) {
        Err(ReportError::NoMemory) => Err(NoMemory),
        Err(ReportError::Bad { line }) => short_telling(alloc, Status::ReportRefused { line }),
        Ok(report) => tell_report(alloc, order, name, script, &report),
    }
}

// Where the report begins.
fn place_in(order: &Order, bytes: &[u8]) -> usize
    ensures within { result ≤ length bytes.now }
    ensures there { drop result bytes.now ≡ report_part order.now bytes.now }
{
    match order {
        Order::Draw(_) => 0,
        Order::Why(_) => report_begin(bytes),
    }
}

/// What is written for an order over these bytes.
pub fn answer(alloc: Global, order: Order, name: &[u8], bytes: &[u8]) -> Result<Telling, NoMemory>
    requires { (s : AnySizes) → order ≡ orders.Why s → AreSizes s }
    ensures answered { IfOk result (λ t. Answered order name.now bytes.now t.status t.text) }
    ensures named { IfOk result (λ t. IsNamed t.status t.text) }
    ensures unhindered { IfOk result (λ t. IsUnhindered t.status) }
{
    let at = place_in(&order, bytes);
    answer_parts(alloc, order, name, &bytes[..at], &bytes[at..])
}
