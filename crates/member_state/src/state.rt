//! What the policy of a member keeps.

use crate::choices::{CHOICES, CYCLES, ChoiceMask, RETRY, Standing};
use crate::points::Points;
use crate::retry::{RetryState, Rollback};
use crate::run::{FrameRequest, Run, Service};
use crate::seat::{Seat, SeatState};
use castout::Castout;
use ds_base::{Lrsn, NoMemory, PageId, Sizes, TranId, Volume};
use ds_model::{FailAt, Reads, Tran, TranList};
use list_structure::{Asker, Query};
use member_marks::Owner;
use std::alloc::Global;
use std::collections::VecDeque;

/// How many flags a phase has.
const FLAGS: usize = 64;

/// More pages than the frames of its pool that a member may have locked.
const PAGES_BESIDE: usize = 128;

/// What the policy of a member keeps.
///
/// Memory for its queues is taken as it is made.
#[derive(Drop)]
pub struct MemberState {
    /// The seats by slot. Slot 0 is none of an agent.
    pub seats: Vec<Seat>,
    pub standings: [Standing; CHOICES],
    /// Whether agents may run.
    pub opened: bool,
    /// The transactions of the part in hand that aren't begun yet, the next one last.
    pub part: Vec<Tran>,
    /// The transaction that raises flag f, at place `f - 1`.
    pub raisers: Vec<Option<TranId>>,
    /// Choices that wait for room in the cache.
    pub full: ChoiceMask,
    /// Seats that wait for another transaction.
    pub waiting: ChoiceMask,
    /// The query in hand, and the asker past whom the next one is taken.
    pub query: Option<Query>,
    pub asked_after: Option<Asker>,
    /// Pages to be yielded, each once.
    pub yields: Vec<PageId>,
    pub service: Option<Service>,
    /// The page action in hand, and the slots that wait for theirs.
    pub run: Option<Run>,
    pub runs: VecDeque<u8>,
    pub frame_requests: VecDeque<FrameRequest>,
    /// How many frames readers have pinned, and how many they may.
    pub reader_pins: u32,
    pub reader_limit: u32,
    /// The castout in hand, and the page past which the next one is sought.
    pub castout: Option<Castout>,
    pub cast_after: Option<PageId>,
    /// Postponed rollbacks in the order in which they were. The one that is tried has this place among them.
    pub rollbacks: Vec<Rollback>,
    pub retried: usize,
    pub retry: RetryState,
    pub points: Points,
    /// How many heap pages a table may have.
    pub heap_limit: u32,
    /// The first byte found that can't stand in its page.
    pub damage: Option<(Volume, u64)>,
}

// Readers pin so few frames at once that the page action finds its own, in the pool and in the cache.
fn reader_limit(sizes: &Sizes) -> u32 {
    let of_pool = (sizes.pool as u32).saturating_sub(3);
    let of_cache = match sizes.cache.checked_div(sizes.members as u32) {
        Some(share) => share.saturating_sub(3),
        None => 0,
    };
    of_pool.min(of_cache).max(1)
}

fn free_seats(alloc: Global, agents: u8) -> Result<Vec<Seat>, NoMemory> {
    let mut seats = Vec::with_capacity(alloc, agents as usize + 1)?;
    for _ in 0..=agents {
        seats.push(Seat::free())?;
    }
    Ok(seats)
}

fn standings() -> [Standing; CHOICES] {
    let mut standings = [Standing::Idle; CHOICES];
    standings[CYCLES as usize] = Standing::Ready;
    standings
}

impl MemberState {
    /// A member that may run, without a part.
    pub fn new(alloc: Global, sizes: &Sizes) -> Result<MemberState, NoMemory> {
        let seats = free_seats(alloc, sizes.agents)?;
        let slots = sizes.agents as usize + 1;
        Ok(MemberState {
            seats,
            standings: standings(),
            opened: true,
            part: Vec::new(alloc),
            raisers: Vec::with_capacity(alloc, FLAGS)?,
            full: ChoiceMask::new(),
            waiting: ChoiceMask::new(),
            query: None,
            asked_after: None,
            yields: Vec::with_capacity(alloc, sizes.pool as usize + PAGES_BESIDE)?,
            service: None,
            run: None,
            runs: VecDeque::with_capacity(alloc, slots)?,
            frame_requests: VecDeque::with_capacity(alloc, slots)?,
            reader_pins: 0,
            reader_limit: reader_limit(sizes),
            castout: None,
            cast_after: None,
            rollbacks: Vec::with_capacity(alloc, slots)?,
            retried: 0,
            retry: RetryState::None,
            points: Points::new(None),
            heap_limit: sizes.pages,
            damage: None,
        })
    }

    /// All that the member had is gone, its part too. Its agents may not run until it is opened.
    pub fn clear(&mut self) {
        for seat in self.seats.as_mut_slice().iter_mut() {
            *seat = Seat::free();
        }
        self.standings = standings();
        self.opened = false;
        self.full = ChoiceMask::new();
        self.waiting = ChoiceMask::new();
        self.damage = None;
        self.points = Points::new(None);
        self.clear_part();
        self.clear_queues();
        self.clear_rollbacks();
    }

    fn clear_part(&mut self) {
        self.part.clear();
        self.raisers.clear();
    }

    fn clear_queues(&mut self) {
        self.query = None;
        self.asked_after = None;
        self.yields.clear();
        self.service = None;
        self.run = None;
        self.runs.clear();
        self.frame_requests.clear();
        self.reader_pins = 0;
        self.castout = None;
        self.cast_after = None;
    }

    fn clear_rollbacks(&mut self) {
        self.rollbacks.clear();
        self.retried = 0;
        self.retry = RetryState::None;
    }

    /// The member's agents may run from now on.
    pub fn open(&mut self) {
        self.opened = true;
        self.stand_free_seats();
        self.stand_retry();
    }

    // ---- parts

    /// A phase begins: the member's part of it is in hand. The raisers are those of the phase's flags, from flag 1 on.
    pub fn begin_phase(
        &mut self,
        trans: TranList,
        raisers: &[Option<TranId>],
        fail: Option<FailAt>,
    ) -> Result<(), NoMemory> {
        self.points = Points::new(fail);
        self.raisers.clear();
        self.raisers.extend_from_slice(raisers)?;
        let mut part = trans.into_vec();
        part.as_mut_slice().reverse();
        self.part = part;
        self.stand_free_seats();
        Ok(())
    }

    /// The transaction that raises a flag of the phase.
    pub fn raiser(&self, flag: u8) -> Option<TranId> {
        let place = (flag as usize).checked_sub(1)?;
        *self.raisers.get(place)?
    }

    /// Whether no transaction of the part is left or in hand.
    pub fn is_at_rest(&self) -> bool {
        self.opened && self.part.is_empty() && self.seats.iter().all(|seat| seat.is_free())
    }

    fn standing_of_free(&self) -> Standing {
        if self.opened && !self.part.is_empty() {
            Standing::Ready
        } else {
            Standing::Idle
        }
    }

    /// A free seat is ready where the part has a transaction left.
    pub fn stand_free_seats(&mut self) {
        let standing = self.standing_of_free();
        for slot in 1..17u8 {
            if self.is_free(slot) {
                self.stand(slot as u64, standing);
            }
        }
    }

    // ---- seats and standings

    /// Whether the slot is a seat without a transaction.
    pub fn is_free(&self, slot: u8) -> bool {
        match self.seats.get(slot as usize) {
            Some(seat) => seat.is_free(),
            None => false,
        }
    }

    /// What the seat is at. There is nothing past the last one.
    pub fn seat_state(&self, slot: u8) -> SeatState {
        match self.seats.get(slot as usize) {
            Some(seat) => seat.state,
            None => SeatState::Free,
        }
    }

    /// The seat is at this, and ready.
    pub fn set_state(&mut self, slot: u8, state: SeatState) {
        self.set_standing_state(slot, state, Standing::Ready);
    }

    /// The seat is at this, and stands so.
    pub fn set_standing_state(&mut self, slot: u8, state: SeatState, standing: Standing) {
        if let Some(seat) = self.seats.get_mut(slot as usize) {
            seat.state = state;
            self.stand(slot as u64, standing);
        }
    }

    /// The seat has no transaction any more.
    pub fn free_seat(&mut self, slot: u8) {
        let standing = self.standing_of_free();
        if let Some(seat) = self.seats.get_mut(slot as usize) {
            *seat = Seat::free();
            self.stand(slot as u64, standing);
        }
    }

    /// What the seat's transaction has read; its agent is gone.
    pub fn take_reads(&mut self, slot: u8) -> Reads {
        let alloc = *self.part.allocator();
        match self.seats.get_mut(slot as usize) {
            Some(seat) => match seat.agent.take() {
                Some(agent) => agent.into_reads(),
                None => Reads::new(alloc),
            },
            None => Reads::new(alloc),
        }
    }

    /// The log buffer was appended: seats and the rollback that waited for that write their pages next.
    pub fn forced(&mut self) {
        self.points.count_forced();
        if let RetryState::Force = self.retry {
            self.retry = RetryState::Writes;
        }
        for seat in self.seats.as_mut_slice().iter_mut() {
            if seat.is_forcing() {
                seat.state = SeatState::Writes;
            }
        }
    }

    pub fn standing(&self, choice: u64) -> Standing {
        match self.standings.get(choice as usize) {
            Some(standing) => *standing,
            None => Standing::Idle,
        }
    }

    pub fn stand(&mut self, choice: u64, standing: Standing) {
        if let Some(place) = self.standings.get_mut(choice as usize) {
            *place = standing;
        }
    }

    /// The choice waits until the bell is above its value after this event.
    pub fn park(&mut self, choice: u64, bell: u64, is_full: bool) {
        self.stand(choice, Standing::Until(bell));
        if is_full {
            self.full.insert(choice);
        }
    }

    /// The bell has risen.
    pub fn unpark(&mut self, choice: u64) {
        self.stand(choice, Standing::Ready);
        self.full.remove(choice);
    }
}

impl MemberState {
    // ---- postponed rollbacks

    /// The rollback waits, after a try at this bell.
    pub fn add_rollback(&mut self, id: Lrsn, tried: u64) -> Result<(), NoMemory> {
        self.rollbacks.push(Rollback { id, tried })?;
        Ok(())
    }

    /// The rollback that is tried, or would be.
    pub fn retried(&self) -> Option<Owner> {
        let rollback = self.rollbacks.get(self.retried)?;
        Some(Owner::Rollback(rollback.id))
    }

    fn oldest_try(&self) -> Option<u64> {
        self.rollbacks.iter().map(|rollback| rollback.tried).min()
    }

    /// While no rollback is tried, choice 22 waits for the bell of the oldest try.
    pub fn stand_retry(&mut self) {
        let RetryState::None = self.retry else {
            return;
        };
        let standing = match self.oldest_try() {
            Some(tried) if self.opened => Standing::Until(tried),
            _ => Standing::Idle,
        };
        self.stand(RETRY, standing);
    }
}
