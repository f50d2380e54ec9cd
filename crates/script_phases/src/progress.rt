//! How far a script is played, and what the group itself may do next.

ghost use Rattle.std.specs.Prelude.{◌≡◌, ◌+◌, ◌-◌, ◌^◌, ◌<◌, min, false};
ghost use Rattle.script_phases.specs.Progresses.{choice_next, groupfails_wanted, has_groupfail, has_phase, is_played};

use ds_model::Script;

/// The choice of the group that begins the next phase.
pub const NEXT_PHASE: u64 = 0;

/// The choice by which the group fails where the script says so.
pub const GROUP_FAILURE: u64 = 1;

/// The choice that makes the next call of the disk in a group restart.
pub const GROUP_RESTART: u64 = 2;

/// How far a script is played.
#[derive(Clone, Copy, Debug)]
pub struct Progress {
    /// How many phases have begun.
    pub begun: usize,
    /// How often the script has let the group fail since then.
    pub groupfails: u32,
    /// Whether all members are done with the phase.
    pub is_idle: bool,
}

// How often the group is to fail before the next phase, or behind the last one.
fn groupfails_wanted(script: &Script, begun: usize) -> u32
    ensures { result ≡ groupfails_wanted script.now begun }
{
    match script.phases.as_slice().get(begun) {
        Some(phase) => phase.groupfails,
        None => script.groupfails,
    }
}

impl Progress {
    /// Nothing is played.
    pub fn new() -> Progress
        ensures { result ≡ record { begun = 0; groupfails = 0; is_idle = false } }
    {
        Progress {
            begun: 0,
            groupfails: 0,
            is_idle: false,
        }
    }

    /// Whether the script lets the group fail before its next phase, or behind its last one.
    pub fn has_groupfail(&self, script: &Script) -> bool
        ensures { result ≡ has_groupfail self.now script.now }
    {
        self.groupfails < groupfails_wanted(script, self.begun)
    }

    /// Whether the script has another phase.
    pub fn has_phase(&self, script: &Script) -> bool
        ensures { result ≡ has_phase self.now script.now }
    {
        self.begun < script.phases.len()
    }

    /// Whether all of the script is played.
    pub fn is_played(&self, script: &Script) -> bool
        ensures { result ≡ is_played self.now script.now }
    {
        self.is_idle && !self.has_groupfail(script) && !self.has_phase(script)
    }

    /// The choice of the group that is ready where no group restart is in hand.
    pub fn choice(&self, script: &Script) -> Option<u64>
        ensures { result ≡ choice_next self.now script.now }
    {
        if !self.is_idle {
            None
        } else if self.has_groupfail(script) {
            Some(GROUP_FAILURE)
        } else if self.has_phase(script) {
            Some(NEXT_PHASE)
        } else {
            None
        }
    }

    /// A phase has begun.
    pub fn begin_phase(&mut self)
        requires { self.old.begun < 2 ^ 64 - 1 }
        ensures { self.new ≡ record { begun = self.old.begun + 1; groupfails = 0; is_idle = false } }
    {
        self.begun += 1;
        self.groupfails = 0;
        self.is_idle = false;
    }

    /// The script has let the group fail.
    pub fn count_groupfail(&mut self)
        ensures { self.new ≡ record self.old { groupfails = min (self.old.groupfails + 1) (2 ^ 32 - 1) } }
    {
        self.groupfails = self.groupfails.saturating_add(1);
    }
}
