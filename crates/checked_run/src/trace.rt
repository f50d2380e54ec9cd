//! The trace of a run.

ghost use Rattle.std.specs.Prelude.{◌≡◌, map, IfOk};
ghost use Rattle.ds_model.specs.declared.script.Script.{Script as AnyScript};
ghost use Rattle.report_told.specs.Names.{names_in};
ghost use Rattle.checked_run.specs.Accounts.{cause_line, cause_lines, TellsTrace};

use crate::plain::no_trace;
use ds_base::{Bytes, NoMemory, Sequence};
use ds_model::{CauseLine, CauseLineList, EventLine, EventLineList, Script, Trace};
use group_core::{Cause, Line};
use report_told::{name_at, names_of};
use std::alloc::Global;

fn word_of(alloc: Global, word: &[u8]) -> Result<Bytes, NoMemory> {
    Ok(Bytes::from_vec(Vec::from_slice(alloc, word)?))
}

fn event_of(alloc: Global, line: &Line) -> Result<EventLine, NoMemory> {
    Ok(EventLine {
        place: line.place,
        member: line.member,
        choice: line.choice,
        command: word_of(alloc, line.command)?,
        reply: word_of(alloc, line.reply)?,
    })
}

fn events_of(alloc: Global, lines: &[Line]) -> Result<EventLineList, NoMemory> {
    let mut events = Sequence::new(alloc);
    for line in lines {
        events.push(event_of(alloc, line)?)?;
    }
    Ok(events)
}

// The lines that were kept, if any were.
fn kept(lines: &Option<Vec<Line>>) -> &[Line] {
    match lines {
        Some(lines) => lines,
        None => &[],
    }
}

fn cause_line(alloc: Global, names: &[&Bytes], cause: Cause) -> Result<CauseLine, NoMemory>
    ensures { (s : AnyScript) → map (λ n. n.now) names.now ≡ names_in s → IfOk result (λ line. line ≡ cause_line s cause) }
{
    Ok(CauseLine {
        name: name_at(alloc, names, cause.number)?,
        place: cause.place,
    })
}

fn causes_of(alloc: Global, script: &Script, causes: &[Cause]) -> Result<CauseLineList, NoMemory>
    ensures { IfOk result (λ told. told ≡ cause_lines script.now causes.now) }
{
    let names = names_of(alloc, script)?;
    let mut told = Sequence::new(alloc);
    for cause in causes {
        told.push(cause_line(alloc, &names, *cause)?)?;
    }
    Ok(told)
}

/// The trace of a run, where one is wanted: the causes of its refusals with the names of their transactions, and the lines that
/// were kept.
pub fn trace_of(
    alloc: Global,
    script: &Script,
    causes: &[Cause],
    lines: &Option<Vec<Line>>,
    is_traced: bool,
) -> Result<Trace, NoMemory>
    ensures { IfOk result (TellsTrace script.now is_traced causes.now) }
{
    if !is_traced {
        return Ok(no_trace(alloc));
    }
    Ok(Trace {
        causes: causes_of(alloc, script, causes)?,
        events: events_of(alloc, kept(lines))?,
    })
}
