//! The lines of a trace.

ghost use Rattle.std.specs.Prelude.{◌≡◌, ◌++◌, OnOk};
ghost use Rattle.std.specs.List.{flat_map};
ghost use Rattle.ds_model.specs.ReportText.{cause_text, event_text, trace_text};

use ds_base::{Bytes, NoMemory};
use ds_model::{CauseLine, EventLine, Trace};
use report_line::{put_cause, put_event};
use std::alloc::Global;

fn put_causes(alloc: Global, out: &mut Bytes, causes: &[CauseLine]) -> Result<(), NoMemory>
    ensures { OnOk result (out.new ≡ out.old ++ flat_map cause_text causes.now) }
{
    for cause in causes {
        put_cause(alloc, out, cause)?;
    }
    Ok(())
}

fn put_events(alloc: Global, out: &mut Bytes, events: &[EventLine]) -> Result<(), NoMemory>
    ensures { OnOk result (out.new ≡ out.old ++ flat_map event_text events.now) }
{
    for event in events {
        put_event(alloc, out, event)?;
    }
    Ok(())
}

/// Adds a line for each cause, and then one for each event.
pub fn put_trace(alloc: Global, out: &mut Bytes, trace: &Trace) -> Result<(), NoMemory>
    ensures { OnOk result (out.new ≡ out.old ++ trace_text trace.now) }
{
    put_causes(alloc, out, trace.causes.as_slice())?;
    put_events(alloc, out, trace.events.as_slice())
}
