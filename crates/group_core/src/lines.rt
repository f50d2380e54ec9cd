//! The number of an event in the journal, and its line of the trace.

ghost use Rattle.std.specs.Prelude.{◌≡◌, ◌<◌, vec_len, vec_capacity, OnOk};
ghost use Rattle.group_core.specs.Goes.{noted};

use ds_base::NoMemory;
use group_crew::{Answered, Sent, Stepped};
use trace_words::{Line, fail_line, line_of, rebuild_line, restart_line};

/// Takes memory for the event's number, for its place among those of failed calls, and for its line.
pub fn reserve(
    journal: &mut Vec<u64>,
    faults: &mut Vec<u64>,
    lines: &mut Option<Vec<Line>>,
) -> Result<(), NoMemory>
    ensures journal { journal.new.items ≡ journal.old.items }
    ensures faults { faults.new.items ≡ faults.old.items }
    ensures room { OnOk result (vec_len journal.new < vec_capacity journal.new) }
    ensures spare { OnOk result (vec_len faults.new < vec_capacity faults.new) }
{
    journal.reserve(1)?;
    faults.reserve(1)?;
    if let Some(lines) = lines {
        lines.reserve(1)?;
    }
    Ok(())
}

/// Notes the place of an event, where a call of the disk has failed in it.
pub fn note_failure(faults: &mut Vec<u64>, place: u64, failed: bool)
    requires { vec_len faults.old < vec_capacity faults.old }
    ensures { faults.new.items ≡ noted faults.old.items place failed }
{
    if failed {
        faults.push_reserved(place);
    }
}

/// Keeps a line, where lines are kept.
pub fn note(lines: &mut Option<Vec<Line>>, line: Line) {
    if let Some(lines) = lines {
        if lines.len() < lines.capacity() {
            lines.push_reserved(line);
        }
    }
}

/// The line of an event of a member.
pub fn stepped_line(place: u64, event: u64, stepped: &Stepped) -> Line {
    match stepped {
        Stepped::Sent(sent, answered) => line_of(place, event, sent, answered),
        Stepped::Restart(sent, answered) => restart_line(place, event, sent, answered),
        Stepped::Rebuild(sent, answered) => rebuild_line(place, event, sent, answered),
        Stepped::Failed => fail_line(place, event),
    }
}

/// Keeps the line of an event of a member, where lines are kept.
pub fn note_step(lines: &mut Option<Vec<Line>>, place: u64, event: u64, stepped: &Stepped) {
    if lines.is_some() {
        note(lines, stepped_line(place, event, stepped));
    }
}

/// Keeps the line of an event in which nothing is sent.
pub fn note_silent(lines: &mut Option<Vec<Line>>, place: u64, event: u64) {
    note(lines, line_of(place, event, &Sent::None, &Answered::None));
}
