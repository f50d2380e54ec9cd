ghost use Rattle.std.specs.Prelude.{◌≡◌, ℕ, ◌+◌, ◌-◌, ◌<◌, ◌≤◌, ◌↔◌, false, length, slice_index_or, count_by, IfOk};
ghost use Rattle.ds_base.specs.Ids.{IsMember};
ghost use Rattle.cache_structure.specs.Directory.{bit, castout_of, empty_directory};
ghost use Rattle.list_structure.specs.Bells.{bell_of, CanRing};
ghost use Rattle.list_structure.specs.Askers.{slot_of};
ghost use Rattle.list_structure.specs.Cells.{cell_of, cells_by, NoneAsked};
ghost use Rattle.list_structure.specs.declared.query.Cell.TheVariants.{Empty};
ghost use Rattle.list_structure.specs.Standings.{done_of, is_live, status_of};
ghost use Rattle.facility.specs.States.{held, IsMade, IsReset, MemberFailed, PhaseBegun};
ghost use Rattle.facility.specs.Commands.{AsksSlot, CanExecute, Executes, IsSlot, cells_for};

use crate::{Command, Reply};
use cache_structure::CacheFace;
use ds_base::{Lrsn, MemberId, NoMemory, PageId, Sizes, TranId};
use list_structure::{Cell, Lists, Wait};
use lock_structure::LockStructure;
use page_format::Page;
use std::alloc::Global;

/// How many page locks a member may hold beside one for each frame of its pool.
const SPARE_PAGES: u32 = 128;

/// The coupling facility of a group.
///
/// No call but `new` takes memory.
#[derive(Drop)]
pub struct Facility<C> {
    pub locks: LockStructure,
    pub cache: C,
    pub lists: Lists,
    /// The last number that was drawn for a log record.
    pub counter: Lrsn,
}

impl<C: CacheFace + Drop> Facility<C> {
    /// A facility for a group of these sizes, over a cache in which nothing was ever done, and with the last number that
    /// was drawn for a log record.
    pub fn new(
        alloc: Global,
        sizes: &Sizes,
        cache: C,
        counter: Lrsn,
    ) -> Result<Facility<C>, NoMemory>
        requires locks { 1 ≤ sizes.now.locks }
        requires cache { C.directory cache ≡ empty_directory sizes.now.cache sizes.now.pool }
        ensures { IfOk result (λ facility. IsMade sizes.now counter (held C.directory facility)) }
    {
        let pages = sizes.pool as u32 + SPARE_PAGES;
        Ok(Facility {
            locks: LockStructure::new(alloc, sizes.locks, sizes.records, pages)?,
            cache,
            lists: Lists::new(alloc, sizes.members, sizes.agents)?,
            counter,
        })
    }
}

impl<C: CacheFace> Facility<C> {
    /// Executes a command of a member. `page` is read by `write`, and filled by `read` and `castout-read`.
    pub fn command(&mut self, member: MemberId, command: &Command, page: &mut Page) -> Reply
        requires { CanExecute (held C.directory self.old) member command.now }
        ensures { Executes (held C.directory self.old) member command.now page.old result (held C.directory self.new) page.new }
    {
        match *command {
            Command::Obtain { name, mode } => self.obtain(member, &name, mode),
            Command::Grant { slot, name, mode } => self.grant(member, slot, &name, mode),
            Command::Release { name, keeps } => self.release(member, &name, keeps),
            Command::Purge { name } => self.purge(member, &name),
            Command::RetainedAt { n } => self.retained_at(member, n),
            Command::Read { page: id, index } => self.read(member, id, index, page),
            Command::Write { page: id, index } => self.write(member, id, index, page),
            Command::Unregister { index } => self.unregister(member, index),
            Command::Test { index } => self.test_frame(member, index),
            Command::CastoutRead { page: id } => self.castout_read(member, id, page),
            Command::CastoutDone { page: id } => self.castout_done(member, id),
            Command::NextChanged { after } => self.next_changed(after),
            Command::Lose => self.lose(),
            Command::Rebuilt => self.rebuilt(),
            Command::Ask {
                slot,
                to,
                name,
                mode,
            } => self.ask(member, slot, to, &name, mode),
            Command::Take { after } => self.take(member, after),
            Command::Answer {
                asker,
                name,
                mode,
                answer,
                event,
            } => self.answer(member, asker, &name, mode, answer, event),
            Command::Answers { .. } => Reply::Cells,
            Command::Wait { tran, holder, flag } => self.wait(tran, holder, flag),
            Command::Unwait { tran } => self.unwait(tran),
            Command::Waits => Reply::Waits,
            Command::End { tran } => self.end(tran),
            Command::Raise { flag } => self.raise(flag),
            Command::Flag { flag } => self.flag(flag),
            Command::SetStatus { status } => self.set_status(member, status),
            Command::Status { member: other } => self.status(other),
            Command::Claim => self.claim(member),
            Command::Unclaim => self.unclaim(member),
            Command::PhaseDone => self.phase_done(member),
            Command::Draw { indexes } => self.draw(member, &indexes),
            Command::DrawUndo { indexes } => self.draw_undo(member, &indexes),
        }
    }

    /// Marks what a failed member leaves in all structures, in one step. Its locks that are recorded are retained.
    pub fn fail(&mut self, member: MemberId)
        requires { CanRing self.old.lists.bells }
        ensures { MemberFailed (held C.directory self.old) member (held C.directory self.new) }
    {
        self.locks.fail_member(member);
        self.cache.fail_member(member);
        self.lists.fail_member(member);
    }

    /// Begins a phase in which these transactions are to raise the flags, by flag. A flag that nobody is to raise counts
    /// as raised, and no member is done with the phase.
    pub fn begin_phase(&mut self, raisers: &[Option<TranId>])
        requires raisers { length raisers.now ≡ 64 }
        requires bells { CanRing self.old.lists.bells }
        ensures { PhaseBegun (held C.directory self.old) raisers.now (held C.directory self.new) }
    {
        self.lists.begin_phase(raisers);
        self.lists.ring();
    }

    /// Makes the facility as `new` did, with this counter.
    pub fn reset(&mut self, counter: Lrsn)
        ensures { IsReset (held C.directory self.old) counter (held C.directory self.new) }
    {
        self.locks.reset();
        self.cache.lose();
        self.cache.rebuilt();
        self.lists.reset();
        self.counter = counter;
    }

    /// The cells of a member's slot, by the number of the asked member less one.
    pub fn answers(&self, member: MemberId, slot: u8) -> &[Cell]
        requires { IsSlot slot }
        ensures cells { result.now ≡ cells_by self.now.lists.cells (slot_of member slot) }
        ensures count { length result.now ≡ 32 }
        ensures each { (m : ℕ) → IsMember m → slice_index_or result.now (m - 1) Empty ≡ cell_of self.now.lists.cells (slot_of member slot) m }
    {
        self.lists.answers(member, slot)
    }

    /// The cells that the member's command asks for: those of the slot whose answers it reads, and none for any other
    /// command.
    #[tactic(auto, unfolding(crate::specs::Commands::cells_for))]
    pub fn cells_for(&self, member: MemberId, command: &Command) -> &[Cell]
        requires { AsksSlot command.now }
        ensures { result.now ≡ cells_for self.now.lists.cells member command.now }
    {
        match *command {
            Command::Answers { slot } => self.answers(member, slot),
            _ => &[],
        }
    }

    /// Who waits for whom, in the order in which the waits began.
    pub fn waits(&self) -> &[Wait]
        ensures { result.now ≡ self.now.lists.waits }
    {
        self.lists.waits()
    }

    /// How often the member's bell has rung.
    pub fn bell(&self, member: MemberId) -> u64
        ensures { result ≡ bell_of self.now.lists.bells member }
    {
        self.lists.bell(member)
    }

    /// Whether a query to the member waits for its answer.
    pub fn asked(&self, member: MemberId) -> bool
        ensures { (result ≡ false) ↔ NoneAsked self.now.lists.cells member }
    {
        self.lists.asked(member)
    }

    /// Whether the member is up or restarting.
    pub fn live(&self, member: MemberId) -> bool
        ensures { result ≡ is_live (status_of self.now.lists.statuses member) }
    {
        self.lists.live(member)
    }

    /// Whether the member is done with the phase.
    pub fn done(&self, member: MemberId) -> bool
        ensures { result ≡ done_of self.now.lists.done member }
    {
        self.lists.done(member)
    }

    /// Whether the cache is lost and not rebuilt.
    pub fn lost(&self) -> bool
        ensures { result ≡ (C.directory self.now.cache).lost }
    {
        self.cache.is_lost()
    }

    /// The member that holds the castout lock of a page.
    pub fn castout_holder(&self, id: PageId) -> Option<MemberId>
        ensures { result ≡ castout_of (C.directory self.now.cache) id }
    {
        self.cache.castout_holder(id)
    }

    /// How many pages of the cache are changed.
    pub fn changed_count(&self) -> u32
        ensures { result ≡ count_by (λ e. e.changed) (C.directory self.now.cache).entries }
    {
        self.cache.changed_count()
    }

    /// Whether the copy in the member's frame is still valid.
    pub fn test(&self, member: MemberId, index: u16) -> bool
        requires { index < (C.directory self.now.cache).frames }
        ensures { result ≡ bit (C.directory self.now.cache) member index }
    {
        self.cache.test(member, index)
    }
}
