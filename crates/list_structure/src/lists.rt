ghost use Rattle.std.specs.Prelude.{◌≡◌, ◌≢◌, ◌≤◌, ◌<◌, ◌-◌, ℕ, true, false, map, length, slice_index_or, slice_set, IfOk, IsTrue, ◌↔◌, if◌then◌else◌};
ghost use Rattle.std.specs.Option.{ForSome};
ghost use Rattle.ds_base.specs.Ids.{IsMember};
ghost use Rattle.list_structure.specs.Askers.{slot_of};
ghost use Rattle.list_structure.specs.Bells.{bell_of, rung, CanRing};
ghost use Rattle.list_structure.specs.Cells.{AreCells, cell_of, cells_by, emptied, with_cell, without_member, IsNextQuery, NoneAsked};
ghost use Rattle.list_structure.specs.Kept.{AreApart};
ghost use Rattle.list_structure.specs.Rounds.{start_of, query_in, IsNextAsked};
ghost use Rattle.list_structure.specs.Flags.{flag_for, flag_of, raised_by, raised_for, with_raised};
ghost use Rattle.list_structure.specs.Standings.{claim_reply, done_of, is_live, rebuilder_after, rebuilder_without, status_of, NoneDone};
ghost use Rattle.list_structure.specs.States.{IsNew, is_settled};
ghost use Rattle.list_structure.specs.Waits.{FitsWaits, wait_for, with_wait, without_flag, without_tran, without_trans_of, without_waiter};
ghost use Rattle.list_structure.specs.declared.query.Cell.TheVariants.{Asked, Answered, Empty};
ghost use Rattle.list_structure.specs.declared.standing.MemberStatus.TheVariants.{Failed};

use crate::bells::Bells;
use crate::cells::Cells;
use crate::flags::Flags;
use crate::pairs::Pairs;
use crate::standing::Standing;
use crate::{Asker, Cell, CellAnswer, ClaimReply, MemberStatus, Query, Wait};
use ds_base::{MemberId, NoMemory, TranId};
use lock_names::{Mode, Name};
use std::alloc::Global;
use std::marker::Model;

/// Places of askers.
const ASKERS: usize = 544;

/// The list structure of a group.
///
/// Slots are at most 16, and flags 1 to 64. No call but `new` takes memory.
#[derive(Drop)]
pub struct Lists {
    cells: Cells,
    pairs: Pairs,
    flags: Flags,
    bells: Bells,
    standing: Standing,
}

impl Model for Lists {
    ghost use Rattle.list_structure.specs.States.{ListsState};

    ghost Value = { ListsState };

    ghost view = { λ l. record { members = l.standing.members; agents = l.pairs.agents; cells = l.cells; waits = l.pairs.waits; flags = l.flags; statuses = l.standing.statuses; done = l.standing.done; bells = l.bells; rebuilder = l.standing.rebuilder } };
}

impl Lists {
    /// The lists of a group of so many members, each of so many agents. The members are up and done with the phase.
    pub fn new(alloc: Global, members: u8, agents: u8) -> Result<Lists, NoMemory>
        ensures { IfOk result (λ lists. IsNew lists members agents) }
    {
        Ok(Lists {
            cells: Cells::new(alloc)?,
            pairs: Pairs::new(alloc, agents)?,
            flags: Flags::new(alloc)?,
            bells: Bells::new(),
            standing: Standing::new(alloc, members)?,
        })
    }

    /// Makes the lists as `new` did.
    pub fn reset(&mut self)
        ensures { IsNew self.new self.old.members self.old.agents }
    {
        self.cells.clear();
        self.pairs.clear();
        self.flags.clear();
        self.bells.clear();
        self.standing.reset();
    }

    /// Begins a phase in which these transactions are to raise the flags, by flag. A flag that nobody is to raise
    /// counts as raised. No member is done.
    pub fn begin_phase(&mut self, raisers: &[Option<TranId>])
        requires { length raisers.now ≡ 64 }
        ensures flags { self.new.flags ≡ map flag_for raisers.now }
        ensures done { NoneDone self.new.done }
        ensures others { self.new ≡ record self.old { flags = self.new.flags; done = self.new.done } }
    {
        self.flags.begin_phase(raisers);
        self.standing.clear_done();
    }

    /// Asks a member about a name and mode.
    pub fn ask(&mut self, member: MemberId, slot: u8, to: MemberId, name: &Name, mode: Mode)
        requires { slot ≤ 16 }
        ensures cells { AreCells self.new.cells (with_cell self.old.cells (slot_of member slot) to (Asked name.now mode)) }
        ensures others { self.new ≡ record self.old { cells = self.new.cells } }
    {
        let asker = Asker { member, slot };
        let cell = Cell::Asked { name: *name, mode };
        self.cells.put(asker.place(), index(to), cell);
    }

    /// The first query to the member past that asker, and else the first of all.
    pub fn take(&self, member: MemberId, after: Option<Asker>) -> Option<Query>
        requires { ForSome after (λ asker. asker.slot ≤ 16) }
        ensures { IsNextQuery self.now.cells member after result }
    {
        let to = index(member);
        let start = start_after(after);
        let found = next_asked(&self.cells, start, to)?;
        query_in(self.cells.get(found, to), Asker::at(found))
    }

    /// Answers a query, as the entry of its name has this version, by this event. The answer is false, and nothing
    /// changes, where the asker doesn't wait for one about this name and mode.
    pub fn answer(
        &mut self,
        member: MemberId,
        asker: Asker,
        name: &Name,
        mode: Mode,
        answer: CellAnswer,
        version: u64,
        event: u64,
    ) -> bool
        requires { asker.slot ≤ 16 }
        ensures asked { IsTrue result ↔ (cell_of self.old.cells asker member ≡ Asked name.now mode) }
        ensures answered { result ≡ true → AreCells self.new.cells (with_cell self.old.cells asker member (Answered name.now mode answer version event)) }
        ensures gone { result ≡ false → self.new.cells ≡ self.old.cells }
        ensures others { self.new ≡ record self.old { cells = self.new.cells } }
    {
        let place = asker.place();
        let to = index(member);
        if !self.cells.get(place, to).is_asked_for(name, mode) {
            return false;
        }
        let cell = Cell::Answered {
            name: *name,
            mode,
            answer,
            version,
            event,
        };
        self.cells.put(place, to, cell);
        true
    }

    /// The asker's cells, by the number of the asked member less one.
    pub fn answers(&self, member: MemberId, slot: u8) -> &[Cell]
        requires { slot ≤ 16 }
        ensures cells { result.now ≡ cells_by self.now.cells (slot_of member slot) }
        ensures count { length result.now ≡ 32 }
        ensures each { (m : ℕ) → IsMember m → slice_index_or result.now (m - 1) Empty ≡ cell_of self.now.cells (slot_of member slot) m }
    {
        let asker = Asker { member, slot };
        self.cells.by_asker(asker.place())
    }

    /// Empties the asker's cells.
    pub fn empty_cells(&mut self, member: MemberId, slot: u8)
        requires { slot ≤ 16 }
        ensures cells { AreCells self.new.cells (emptied self.old.cells (slot_of member slot)) }
        ensures others { self.new ≡ record self.old { cells = self.new.cells } }
    {
        let asker = Asker { member, slot };
        self.cells.empty_asker(asker.place());
    }

    /// Whether a query to the member waits for its answer.
    pub fn asked(&self, member: MemberId) -> bool
        ensures { (result ≡ false) ↔ NoneAsked self.now.cells member }
    {
        self.cells.has_asked(index(member))
    }

    /// The transaction waits for the holder: for a lock, or for the flag that it is to raise. It takes the place of
    /// the transaction's wait for a holder of the same member. Nothing changes where the flag is raised, or the wait
    /// is known.
    pub fn wait(&mut self, tran: TranId, holder: TranId, flag: u8)
        requires flag { flag ≤ 64 }
        requires room { let wait = wait_for tran holder flag in is_settled self.old wait ≡ false → FitsWaits (with_wait self.old.waits wait) tran.member self.old.agents }
        requires bells { let wait = wait_for tran holder flag in is_settled self.old wait ≡ false → CanRing self.old.bells }
        ensures { let wait = wait_for tran holder flag in self.new ≡ (if is_settled self.old wait then self.old else record self.old { waits = with_wait self.old.waits wait; bells = rung self.old.bells }) }
    {
        let wait = Wait {
            waiter: tran,
            holder,
            flag,
        };
        if self.is_settled(&wait) {
            return;
        }
        self.pairs.add(wait);
        self.bells.ring();
    }

    /// Whether the wait may be added: its flag is one, and where it isn't settled there is room for it and all bells may
    /// ring. It goes over the pairs.
    pub fn can_wait(&self, wait: &Wait) -> bool
        ensures { IsTrue result ↔ ((wait.now.flag ≤ 64) × (is_settled self.now wait.now ≡ false → FitsWaits (with_wait self.now.waits wait.now) wait.now.waiter.member self.now.agents) × (is_settled self.now wait.now ≡ false → CanRing self.now.bells)) }
    {
        wait.flag <= 64
            && (self.is_settled(wait) || (self.bells.can_ring() && self.pairs.fits(wait)))
    }

    fn is_settled(&self, wait: &Wait) -> bool
        requires { wait.now.flag ≤ 64 }
        ensures { result ≡ is_settled self.now wait.now }
    {
        (wait.flag != 0 && self.flags.is_raised(wait.flag)) || self.pairs.has(wait)
    }

    /// The transaction waits no more.
    pub fn unwait(&mut self, tran: TranId)
        ensures { self.new ≡ record self.old { waits = without_waiter self.old.waits tran } }
    {
        self.pairs.drop_waiter(&tran);
    }

    /// All waits, in the order in which they began.
    pub fn waits(&self) -> &[Wait]
        ensures { result.now ≡ self.now.waits }
    {
        self.pairs.list()
    }

    /// No two pairs have one waiter, and holders of one member. It does nothing, and is called where the fact is needed.
    pub fn keeps_waits_apart(&self)
        ensures { AreApart self.now.waits }
    {
        self.pairs.keeps_apart();
    }

    /// The transaction has ended: nobody waits for it, and its flags are raised.
    pub fn end(&mut self, tran: TranId)
        requires { CanRing self.old.bells }
        ensures { self.new ≡ record self.old { waits = without_tran self.old.waits tran; flags = map (raised_by tran) self.old.flags; bells = rung self.old.bells } }
    {
        self.pairs.drop_tran(&tran);
        self.flags.end_tran(tran);
        self.bells.ring();
    }

    /// Raises a flag, so that nobody waits for it.
    pub fn raise(&mut self, flag: u8)
        requires first { 1 ≤ flag }
        requires last { flag ≤ 64 }
        requires bells { CanRing self.old.bells }
        ensures { self.new ≡ record self.old { waits = without_flag self.old.waits flag; flags = with_raised self.old.flags flag; bells = rung self.old.bells } }
    {
        self.flags.raise(flag);
        self.pairs.drop_flag(flag);
        self.bells.ring();
    }

    /// Whether the flag is raised.
    pub fn flag(&self, flag: u8) -> bool
        requires first { 1 ≤ flag }
        requires last { flag ≤ 64 }
        ensures { result ≡ (flag_of self.now.flags flag).raised }
    {
        self.flags.is_raised(flag)
    }

    pub fn set_status(&mut self, member: MemberId, status: MemberStatus)
        requires { CanRing self.old.bells }
        ensures { self.new ≡ record self.old { statuses = slice_set self.old.statuses (member - 1) status; bells = rung self.old.bells } }
    {
        self.standing.set_status(member, status);
        self.bells.ring();
    }

    pub fn status(&self, member: MemberId) -> MemberStatus
        ensures { result ≡ status_of self.now.statuses member }
    {
        self.standing.status(member)
    }

    /// Whether the member is up or restarting.
    pub fn live(&self, member: MemberId) -> bool
        ensures { result ≡ is_live (status_of self.now.statuses member) }
    {
        self.standing.is_live(member)
    }

    /// Lets the member rebuild the cache if it is lost and no other live member does.
    pub fn claim(&mut self, member: MemberId, lost: bool) -> ClaimReply
        ensures reply { result ≡ claim_reply lost self.old.rebuilder member self.old.statuses }
        ensures lists { self.new ≡ record self.old { rebuilder = rebuilder_after result member self.old.rebuilder } }
    {
        self.standing.claim(member, lost)
    }

    /// The member doesn't rebuild the cache any more.
    pub fn unclaim(&mut self, member: MemberId)
        requires { CanRing self.old.bells }
        ensures { self.new ≡ record self.old { rebuilder = rebuilder_without member self.old.rebuilder; bells = rung self.old.bells } }
    {
        self.standing.unclaim(member);
        self.bells.ring();
    }

    /// The member is done with the phase.
    pub fn phase_done(&mut self, member: MemberId)
        requires { CanRing self.old.bells }
        ensures { self.new ≡ record self.old { done = slice_set self.old.done (member - 1) true; bells = rung self.old.bells } }
    {
        self.standing.set_done(member);
        self.bells.ring();
    }

    /// Whether the member is done with the phase.
    pub fn done(&self, member: MemberId) -> bool
        ensures { result ≡ done_of self.now.done member }
    {
        self.standing.is_done(member)
    }

    /// Whether no bell's count is at its end.
    pub fn can_ring(&self) -> bool
        ensures { IsTrue result ↔ CanRing self.now.bells }
    {
        self.bells.can_ring()
    }

    /// Rings all bells.
    pub fn ring(&mut self)
        requires { CanRing self.old.bells }
        ensures { self.new ≡ record self.old { bells = rung self.old.bells } }
    {
        self.bells.ring();
    }

    /// How often the member's bell has rung.
    pub fn bell(&self, member: MemberId) -> u64
        ensures { result ≡ bell_of self.now.bells member }
    {
        self.bells.count(member)
    }

    /// The member failed: its queries and those to it are gone, and so are the waits of its transactions and for
    /// them. The flags that these were to raise are raised, and it rebuilds no cache.
    pub fn fail_member(&mut self, member: MemberId)
        requires { CanRing self.old.bells }
        ensures cells { AreCells self.new.cells (without_member self.old.cells member) }
        ensures others { self.new ≡ record self.old { cells = self.new.cells; waits = without_trans_of self.old.waits member; flags = map (raised_for member) self.old.flags; statuses = slice_set self.old.statuses (member - 1) Failed; bells = rung self.old.bells; rebuilder = rebuilder_without member self.old.rebuilder } }
    {
        self.empty_cells_of(member);
        self.pairs.drop_member(member);
        self.flags.fail_member(member);
        self.standing.set_status(member, MemberStatus::Failed);
        self.standing.unclaim(member);
        self.bells.ring();
    }

    // Empties the member's cells and those to it.
    fn empty_cells_of(&mut self, member: MemberId)
        ensures cells { AreCells self.new.cells (without_member self.old.cells member) }
        ensures others { self.new ≡ record self.old { cells = self.new.cells } }
    {
        self.cells.empty_askers(index(member));
        self.cells.empty_asked(index(member));
    }
}

// The place of a member among all.
fn index(member: MemberId) -> usize
    ensures place { result ≡ member - 1 }
    ensures member { IsMember member }
{
    member.number() as usize - 1
}

// The place past that asker, from which a round begins.
fn start_after(after: Option<Asker>) -> usize
    requires { ForSome after (λ asker. asker.slot ≤ 16) }
    ensures place { result ≡ start_of after }
    ensures range { result ≤ 544 }
{
    match after {
        Some(asker) => asker.place() + 1,
        None => 0,
    }
}

// The first asker from a place on whose cell to the member is asked, and else the first of all.
fn next_asked(cells: &Cells, start: usize, to: usize) -> Option<usize>
    requires start { start ≤ 544 }
    requires to { to < 32 }
    ensures { IsNextAsked cells.now start to result }
{
    match cells.first_asked(start, ASKERS, to) {
        Some(found) => Some(found),
        None => cells.first_asked(0, start, to),
    }
}

// What an asked cell asks.
fn query_in(cell: Cell, asker: Asker) -> Option<Query>
    ensures { result ≡ query_in cell asker }
{
    match cell {
        Cell::Asked { name, mode } => Some(Query { asker, name, mode }),
        _ => None,
    }
}
