ghost use Rattle.std.specs.Prelude.{◌≡◌};

use crate::fault::RunFault;
use group_crew::Crew;
use trace_words::Line;

/// A group that plays a script.
#[derive(Drop)]
pub struct Group<D, C, P> {
    pub disk: D,
    pub crew: Crew<C, P>,
    pub journal: Vec<u64>,
    /// Kept where a trace is wanted.
    pub lines: Option<Vec<Line>>,
    /// The places in the journal, from 1 on, at which a call of the disk has failed.
    pub faults: Vec<u64>,
    pub fault: Option<RunFault>,
}

impl<D, C, P> Group<D, C, P> {
    ghost use Rattle.group_core.specs.Events.{is_over, takes};

    /// The numbers of the events so far.
    pub fn journal(&self) -> &[u64]
        ensures { result.now ≡ self.now.journal.items }
    {
        &self.journal
    }

    /// Why the run has ended before its script.
    pub fn fault(&self) -> Option<RunFault>
        ensures { result ≡ self.now.fault }
    {
        self.fault
    }

    /// Whether the run has ended: the script is played, or there is a fault.
    pub fn is_over(&self) -> bool
        ensures { result ≡ is_over self.now }
    {
        self.fault.is_some() || self.crew.is_played()
    }

    /// Whether the event would be taken: the run hasn't ended, and the event's choice is ready.
    pub fn is_taken(&self, event: u64) -> bool
        ensures { result ≡ takes self.now event }
    {
        self.fault.is_none() && self.crew.is_ready(event)
    }
}
