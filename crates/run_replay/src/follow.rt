//! One event of a trace, taken once more.

ghost use Rattle.std.specs.Prelude.{◌≡◌, true, IfOk, IfErr, OnOk};
ghost use Rattle.run_replay.specs.Follows as spec;
ghost use Rattle.run_replay.specs.Follows.{Follows, Stops};

use crate::fault::ReplayFault;
use cache_structure::CacheFace;
use ds_base::NoMemory;
use ds_disk::Disk;
use ds_model::EventLine;
use group_core::{Group, Line, Policy};
use std::alloc::Global;

// The number of the event of a line.
fn number_of(event: &EventLine) -> u64
    ensures { result ≡ spec.number_of event.now }
{
    event.choice % 64 * 64 + event.member as u64 % 64
}

// Whether both say the same.
fn is_line(line: &Line, event: &EventLine) -> bool
    ensures { result ≡ spec.is_line line.now event.now }
{
    line.place == event.place
        && line.member == event.member
        && line.choice == event.choice
        && line.command == event.command.as_slice()
        && line.reply == event.reply.as_slice()
}

fn kept(lines: &Option<Vec<Line>>) -> &[Line]
    ensures { result.now ≡ spec.kept lines.now }
{
    match lines {
        Some(lines) => lines,
        None => &[],
    }
}

// Whether the last line that is kept says the same.
fn was_line(lines: &Option<Vec<Line>>, event: &EventLine) -> bool
    ensures { result ≡ spec.was_line lines.now event.now }
{
    match kept(lines).last() {
        Some(line) => is_line(line, event),
        None => false,
    }
}

// Tries the event of a trace's line, and answers whether it was taken and was what the line says.
fn try_event<D: Disk, C: CacheFace, P: Policy>(
    alloc: Global,
    group: &mut Group<D, C, P>,
    event: &EventLine,
) -> Result<bool, NoMemory>
    ensures { IfOk result (λ said. Follows C.directory D.alive D.contents D.faults said group.old event.now group.new) }
{
    let is_taken = group.is_taken(number_of(event));
    group.step(alloc, number_of(event))?;
    Ok(is_taken && was_line(&group.lines, event))
}

/// Takes the event of a trace's line, which is to be what the line says.
pub fn take_event<D: Disk, C: CacheFace, P: Policy>(
    alloc: Global,
    group: &mut Group<D, C, P>,
    event: &EventLine,
) -> Result<(), ReplayFault>
    ensures ok { OnOk result (Follows C.directory D.alive D.contents D.faults true group.old event.now group.new) }
    ensures err { IfErr result (Stops C.directory D.alive D.contents D.faults group.old event.now group.new) }
{
    if try_event(alloc, group, event)? {
        Ok(())
    } else {
        Err(ReplayFault::Parted { place: event.place })
    }
}
