//! The policy of a member.
ghost use Rattle.member_marks.specs.Local.{Reaches};

use crate::castouts::{castout_intent, take_for_castout};
use crate::cycles::{cycles_intent, take_for_cycles};
use crate::pages::{pages_intent, take_for_pages};
use crate::queries::{query_intent, take_for_query};
use crate::ready::{is_ready, negotiates, wants_room};
use crate::settling::settle;
use ds_base::{Lrsn, NoMemory, Sizes, TranId, Volume};
use ds_model::{FailAt, Reads, TranList};
use member_agents::{seat_intent, take_for_seat};
use member_intents::{Event, Intent, Look, Outcome};
use member_marks::Marks;
use member_retry::{retry_intent, take_for_retry};
use member_state::{CASTOUT, CYCLES, DUTY, MemberState, PAGES, Policy, QUERY, RETRY, Resources};
use std::alloc::Global;

/// What a member of the group wants next: for its agents, for other members, and for room in its pool and in the cache.
#[derive(Drop)]
pub struct Member {
    state: MemberState,
}

impl Member {
    /// A member that may run, and has nothing to do.
    pub fn new(alloc: Global, sizes: &Sizes) -> Result<Member, NoMemory> {
        Ok(Member {
            state: MemberState::new(alloc, sizes)?,
        })
    }

    // What the choice makes of an event's outcome.
    #[tactic(auto, using(member_marks::specs::Local::on, member_marks::specs::Local::stays))]
    fn take_for(
        &mut self,
        alloc: Global,
        choice: u64,
        event: &Event,
        outcome: &Outcome<'_>,
        marks: &mut Marks,
    ) -> Result<(), NoMemory>
        ensures reaches { Reaches marks.old marks.new }
    {
        let state = &mut self.state;
        match choice {
            1..=16 => take_for_seat(state, alloc, choice as u8, event, outcome, marks),
            QUERY => take_for_query(state, outcome, marks),
            PAGES => take_for_pages(state, alloc, event, outcome, marks),
            CASTOUT => {
                take_for_castout(state, outcome);
                Ok(())
            }
            CYCLES => take_for_cycles(state, alloc, event, outcome, marks),
            RETRY => take_for_retry(state, event, outcome, marks),
            _ => Ok(()),
        }
    }

    fn note_damage(&mut self, outcome: &Outcome<'_>) {
        if let Outcome::Damaged { volume, at } = outcome {
            self.state.damage = Some((*volume, *at));
        }
    }
}

impl Policy for Member {
    fn is_ready(&self, choice: u64, look: &Look) -> bool {
        is_ready(&self.state, choice, look)
    }

    fn intent(&self, choice: u64, resources: &Resources) -> Intent {
        match choice {
            DUTY => Intent::PhaseDone,
            1..=16 => seat_intent(&self.state, choice as u8, resources),
            QUERY => query_intent(&self.state, resources.marks()),
            PAGES => pages_intent(&self.state, resources),
            CASTOUT => castout_intent(&self.state),
            CYCLES => cycles_intent(&self.state),
            RETRY => retry_intent(&self.state, resources),
            _ => Intent::Step,
        }
    }

    #[tactic(auto, using(member_marks::specs::Local::on, member_marks::specs::Local::stays))]
    fn take(
        &mut self,
        alloc: Global,
        choice: u64,
        event: &Event,
        outcome: &Outcome<'_>,
        marks: &mut Marks,
    ) -> Result<(), NoMemory> {
        self.state.points.count_event();
        self.note_damage(outcome);
        let goes_on = negotiates(&self.state, choice, outcome);
        self.take_for(alloc, choice, event, outcome, marks)?;
        if !goes_on {
            settle(&mut self.state, marks);
        }
        Ok(())
    }

    fn begin_phase(
        &mut self,
        _alloc: Global,
        trans: TranList,
        raisers: &[Option<TranId>],
        fail: Option<FailAt>,
    ) -> Result<(), NoMemory> {
        self.state.begin_phase(trans, raisers, fail)
    }

    fn is_fail_due(&self) -> bool {
        self.state.is_fail_due()
    }

    fn adopt(&mut self, id: Lrsn) -> Result<(), NoMemory> {
        self.state.add_rollback(id, 0)
    }

    fn fail(&mut self) {
        self.state.clear();
    }

    fn open(&mut self) {
        self.state.open();
    }

    fn take_reads(&mut self, slot: u8) -> Reads {
        self.state.take_reads(slot)
    }

    fn is_at_rest(&self) -> bool {
        self.state.is_at_rest()
    }

    fn wants_room(&self) -> bool {
        wants_room(&self.state)
    }

    fn damage(&self) -> Option<(Volume, u64)> {
        self.state.damage
    }
}
