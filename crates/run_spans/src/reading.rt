//! What is known behind some events of a trace.

ghost use Rattle.std.specs.Prelude.{◌≡◌, IfOk};
ghost use Rattle.run_spans.specs.Readings.{known_of};
ghost use Rattle.run_spans.specs.Runs as spec;

use crate::latest::Latest;
use crate::member_places::MemberPlaces;
use crate::seats::Seats;
use crate::span::{Passage, Span, Wait};
use crate::spans::Spans;
use ds_base::NoMemory;
use std::alloc::Global;

/// The spans, waits and pages so far, and what the next events need of those before.
#[derive(Drop)]
pub struct Reading {
    pub spans: Vec<Span>,
    pub commits: Vec<usize>,
    pub waits: Vec<Wait>,
    pub pages: Vec<Passage>,
    pub seats: Seats,
    pub rung: Latest,
    pub written: Latest,
    pub appended: MemberPlaces,
    pub reached: MemberPlaces,
}

/// Before the first event.
#[tactic(auto, unfolding(crate::specs::Readings::known_of, crate::specs::Runs::start))]
pub fn start_reading(alloc: Global) -> Result<Reading, NoMemory>
    ensures { IfOk result (λ reading. known_of reading ≡ spec.start) }
{
    Ok(Reading {
        spans: Vec::new(alloc),
        commits: Vec::new(alloc),
        waits: Vec::new(alloc),
        pages: Vec::new(alloc),
        seats: Seats::new(alloc)?,
        rung: Latest::new(),
        written: Latest::new(),
        appended: MemberPlaces::new(alloc)?,
        reached: MemberPlaces::new(alloc)?,
    })
}
