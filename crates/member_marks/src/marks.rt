ghost use Rattle.std.specs.Prelude.{◌≡◌, ◌≤◌, ◌+◌, IfOk, OnOk, OnErr};
ghost use Rattle.member_pool.specs.Heads.{all_free};
ghost use Rattle.member_log.specs.Buffers.{empty_buffer};
ghost use Rattle.member_trans.specs.Trans.{no_trans, newest_of, is_over_at, offers, is_forward, after_event};
ghost use Rattle.member_marks.specs.Names.{has_name, with_name, without_name};
ghost use Rattle.member_marks.specs.State.{MarksState, IsFresh, agents_of, tran_of, slot_tran, id_of, with_trans, with_kept};
ghost use Rattle.member_marks.specs.Rollbacks.{after_reset};

use crate::kept::KeptNames;
use ds_base::{Lrsn, MemberId, NoMemory, TranId};
use ds_model::Name;
use lock_manager::LockManager;
use member_log::MemberLog;
use member_pool::Heads;
use member_trans::{Change, Owner, Refused, Stage, Trans};
use std::alloc::Global;
use std::marker::Model;

/// The claims, frames without their bytes, log buffer, transactions and postponed rollbacks of a member.
///
/// A slot or frame past the last is like a free one, and so is a rollback that isn't there.
#[derive(Drop)]
pub struct Marks {
    pub(crate) locks: LockManager,
    pub(crate) heads: Heads,
    pub(crate) log: MemberLog,
    pub(crate) trans: Trans,
    pub(crate) kept: KeptNames,
    pub(crate) member: MemberId,
    pub(crate) agents: u8,
    pub(crate) alloc: Global,
}

impl Model for Marks {
    ghost use Rattle.std.specs.Prelude.{◌≡◌};
    ghost use Rattle.member_marks.specs.State.{MarksState};

    ghost Value = { MarksState };

    ghost view = { λ m. record { locks = m.locks; heads = m.heads; log = m.log; trans = m.trans; kept = m.kept; member = m.member } };

    ghost invariant = { λ m. m.locks.agents ≡ m.agents };
}

/// How many bytes the log buffer has.
const LOG_BUFFER: u32 = 65_536;

impl Marks {
    /// Nothing is held. The member has `agents` slots and `frames` frames, at least one, and the group's lock table `entries`
    /// entries, at least one.
    pub fn new(
        alloc: Global,
        member: MemberId,
        agents: u8,
        entries: u32,
        frames: u16,
    ) -> Result<Marks, NoMemory>
        requires sizes { (1 ≤ entries) × (1 ≤ frames) }
        ensures { IfOk result (λ marks. IsFresh member agents entries frames marks) }
    {
        Ok(Marks {
            locks: LockManager::new(alloc, agents, entries, frames as u32 + 128)?,
            heads: Heads::new(alloc, frames)?,
            log: MemberLog::new(alloc, LOG_BUFFER)?,
            trans: Trans::new(alloc, agents)?,
            kept: KeptNames::new(alloc),
            member,
            agents,
            alloc,
        })
    }

    pub fn member(&self) -> MemberId
        ensures { result ≡ self.now.member }
    {
        self.member
    }

    /// The highest slot.
    pub fn agents(&self) -> u8
        ensures { result ≡ agents_of self.now }
    {
        self.agents
    }

    pub fn stage(&self, owner: &Owner) -> Stage
        ensures { result ≡ (tran_of self.now owner.now).stage }
    {
        self.trans.stage(owner)
    }

    pub fn is_forward(&self, slot: u8) -> bool
        ensures { result ≡ is_forward (slot_tran self.now slot).stage }
    {
        self.trans.is_forward(slot)
    }

    /// The owner's transaction. Its number is 0 where there is none, and where a restart left the rollback.
    pub fn tran(&self, owner: &Owner) -> TranId
        ensures { result ≡ id_of self.now owner.now }
    {
        TranId {
            member: self.member,
            number: self.trans.number(owner),
        }
    }

    /// The number of the transaction's first record in the log, 0 before there is one.
    pub fn first(&self, owner: &Owner) -> Lrsn
        ensures { result ≡ (tran_of self.now owner.now).first }
    {
        self.trans.first(owner)
    }

    /// The newest row change of the transaction that stands.
    pub fn newest_change(&self, owner: &Owner) -> Option<Change>
        ensures { result ≡ newest_of (tran_of self.now owner.now) }
    {
        self.trans.newest(owner)
    }

    /// Whether changes of the transaction were taken back.
    pub fn has_undone(&self, owner: &Owner) -> bool
        ensures { result ≡ (tran_of self.now owner.now).undone }
    {
        self.trans.has_undone(owner)
    }

    /// Whether the transaction has begun to give up its locks.
    pub fn has_released(&self, owner: &Owner) -> bool
        ensures { result ≡ (tran_of self.now owner.now).released }
    {
        self.trans.has_released(owner)
    }

    /// Whether the transaction is decided, or all of it is taken back and the log says so.
    pub fn is_over(&self, owner: &Owner) -> bool
        ensures { result ≡ is_over_at (tran_of self.now owner.now) self.now.log.stable }
    {
        self.trans.is_over(owner, self.log.stable())
    }

    /// The slots that this event has decided, in the log's order.
    pub fn decided(&self) -> &[u8]
        ensures { result.now ≡ self.now.trans.decided }
    {
        self.trans.decided()
    }

    /// Whether this event allows a refusal of the owner's transaction.
    pub fn is_offered(&self, owner: &Owner) -> bool
        ensures { result ≡ offers self.now.trans.offer owner.now }
    {
        self.trans.is_offered(owner)
    }
}

impl Marks {
    /// A new event begins, at this place of the journal.
    pub fn begin_event(&mut self, place: u64)
        ensures { self.new ≡ with_trans self.old (after_event self.old.trans place) }
    {
        self.trans.begin_event(place);
    }

    /// The transaction that this event has refused. It is told once.
    pub fn take_refused(&mut self) -> Option<Refused>
        ensures told { result ≡ self.old.trans.refused }
        ensures after { self.new ≡ with_trans self.old (record self.old.trans { refused = None }) }
    {
        self.trans.take_refused()
    }

    /// The number of the decided transaction that has come to its end in this event. It is told once.
    pub fn take_answered(&mut self) -> Option<u32>
        ensures told { result ≡ self.old.trans.answered }
        ensures after { self.new ≡ with_trans self.old (record self.old.trans { answered = None }) }
    {
        self.trans.take_answered()
    }
}

// Table spaces and rows whose retained records, of a failure of this member, stand in the group's lock table.
impl Marks {
    /// Whether the name's record is known as retained.
    pub fn is_kept(&self, name: &Name) -> bool
        ensures { result ≡ has_name self.now.kept name.now }
    {
        self.kept.has(name)
    }

    /// The record of the name, that of a table space or row, is known as retained.
    pub fn keep(&mut self, name: &Name) -> Result<(), NoMemory>
        ensures ok { OnOk result (self.new ≡ with_kept self.old (with_name self.old.kept name.now)) }
        ensures err { OnErr result (self.new ≡ self.old) }
    {
        self.kept.add(name)
    }

    /// The record of the name was purged.
    pub fn forget_kept(&mut self, name: &Name)
        ensures { self.new ≡ with_kept self.old (without_name self.old.kept name.now) }
    {
        self.kept.forget(name);
    }

    /// As at the start, with the room that there is. Takes no memory.
    pub fn reset(&mut self)
        ensures { self.new ≡ after_reset self.old }
    {
        self.locks.reset();
        self.heads.reset();
        self.log.reset();
        self.trans.reset();
        self.kept.reset();
    }
}
