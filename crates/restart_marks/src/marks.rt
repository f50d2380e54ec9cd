ghost use Rattle.std.specs.Prelude.{◌≡◌, slice_get, None, Some, IfOk, option_copied};
ghost use Rattle.restart_marks.specs.State.{IsFresh, with_own};
ghost use Rattle.restart_records.specs.Trans.{tran_in, page_undone, newest};
ghost use Rattle.restart_records.specs.Names.{mark_of};
ghost use Rattle.restart_records.specs.Own.{KnowsTo, own_with};
ghost use Rattle.restart_records.specs.Maps.{places_at};

use crate::hand::Hand;
use ds_base::{Lrsn, MemberId, NoMemory, PageId, Sequence};
use ds_model::LogRecord;
use lock_names::Name;
use member_log::MemberLog;
use restart_records::{
    CheckpointReader, NameMark, Names, Newest, OwnLog, Queue, RestartTran, RestartTrans, TurnKey,
    page_of,
};
use std::alloc::Global;
use std::marker::Model;

/// Who has retained the page of the newest change of a transaction, when it was last asked for.
#[derive(Clone, Copy, Debug, PartialEq, Eq)]
pub struct KeptBy {
    pub id: Lrsn,
    pub by: MemberId,
}

/// How many bytes the log buffer has.
const LOG_BUFFER: u32 = 65_536;

/// What a restarting member holds, without the bytes of its page.
#[derive(Drop)]
pub struct RestartMarks {
    pub(crate) member: MemberId,
    pub(crate) own: OwnLog,
    pub(crate) log: MemberLog,
    pub(crate) counter: u128,
    pub(crate) listed: u32,
    pub(crate) is_listed: bool,
    pub(crate) pages: Queue,
    pub(crate) names: Names,
    pub(crate) trans: RestartTrans,
    pub(crate) hand: Hand,
    pub(crate) claim: Option<PageId>,
    pub(crate) kept: Option<KeptBy>,
    pub(crate) is_up: bool,
}

impl Model for RestartMarks {
    ghost use Rattle.restart_marks.specs.State.{RestartState};

    ghost Value = { RestartState };

    ghost view = { λ m. record { member = m.member; own = m.own; log = m.log; counter = m.counter; listed = m.listed; is_listed = m.is_listed; pages = m.pages; names = m.names; trans = m.trans; hand = m.hand; claim = m.claim; kept = m.kept; is_up = m.is_up } };
}

impl RestartMarks {
    /// Nothing is read, known or held yet, but that the member's log is whole records up to this byte.
    pub fn new(alloc: Global, member: MemberId, known: u64) -> Result<RestartMarks, NoMemory>
        ensures fresh { IfOk result (IsFresh member) }
        ensures known { IfOk result (λ marks. KnowsTo known marks.own.reader) }
    {
        Ok(RestartMarks {
            member,
            own: OwnLog::new(alloc, member, known)?,
            log: MemberLog::new(alloc, LOG_BUFFER)?,
            counter: 0,
            listed: 0,
            is_listed: false,
            pages: Queue::new(alloc),
            names: Names::new(alloc),
            trans: RestartTrans::new(alloc),
            hand: Hand::empty(),
            claim: None,
            kept: None,
            is_up: false,
        })
    }

    pub fn member(&self) -> MemberId
        ensures { result ≡ self.now.member }
    {
        self.member
    }

    /// Whether the own log is read whole.
    pub fn is_read(&self) -> bool
        ensures { result ≡ self.now.own.is_read }
    {
        self.own.is_read()
    }

    /// How many bytes follow the whole records of the own log.
    pub fn tail(&self) -> u64
        ensures { result ≡ self.now.own.tail }
    {
        self.own.tail()
    }

    /// The records of the own log, once it is read whole.
    pub fn records(&self) -> &[LogRecord]
        ensures { result.now ≡ self.now.own.records }
    {
        self.own.records()
    }

    /// Where among them those stand that change the page.
    pub fn places(&self, page: PageId) -> Option<&Sequence<usize>>
        ensures { option_copied result ≡ places_at self.now.own.places page }
    {
        self.own.places(page)
    }

    /// The greatest number that was met: in the own log, of pages, and of what was drawn.
    pub fn counter(&self) -> u128
        ensures { result ≡ self.now.counter }
    {
        self.counter
    }

    /// The bytes of the records that wait for the log.
    pub fn pending(&self) -> &[u8]
        ensures { result.now ≡ self.now.log.pending }
    {
        self.log.pending()
    }

    /// Whether all retained locks are known.
    pub fn is_listed(&self) -> bool
        ensures { result ≡ self.now.is_listed }
    {
        self.is_listed
    }

    /// The first retained page: one whose rank isn't known, or else the one that is written before all others.
    pub fn first_page(&self) -> Option<TurnKey>
        ensures { result ≡ slice_get self.now.pages 0 }
    {
        self.pages.first()
    }

    /// What is known of the name of a table space or row.
    pub fn name(&self, name: &Name) -> NameMark
        ensures { result ≡ mark_of self.now.names name.now }
    {
        self.names.mark(name)
    }

    /// The transactions that the own log leaves open, in the order of their numbers.
    pub fn trans(&self) -> &[RestartTran]
        ensures { result.now ≡ self.now.trans.list }
    {
        self.trans.list()
    }

    pub fn tran(&self, id: Lrsn) -> Option<&RestartTran>
        ensures { option_copied result ≡ tran_in self.now.trans id }
    {
        self.trans.get(id)
    }

    /// The newest row change of an open transaction that stands.
    pub fn newest(&self, id: Lrsn) -> Option<Newest>
        ensures { result ≡ newest self.now.trans id }
    {
        self.trans.newest(id)
    }

    /// The page of that change.
    pub fn page_undone(&self, id: Lrsn) -> Option<PageId>
        ensures { result ≡ page_undone self.now.trans id }
    {
        match self.trans.newest(id) {
            Some(it) => Some(page_of(&it.change)),
            None => None,
        }
    }

    pub fn hand(&self) -> Hand
        ensures { result ≡ self.now.hand }
    {
        self.hand
    }

    /// The page whose lock is claimed.
    pub fn claim(&self) -> Option<PageId>
        ensures { result ≡ self.now.claim }
    {
        self.claim
    }

    /// Who has retained the page of the newest change of a transaction, when a lock was last asked for.
    pub fn kept_by(&self) -> Option<KeptBy>
        ensures { result ≡ self.now.kept }
    {
        self.kept
    }

    /// Whether the restart is over.
    pub fn is_up(&self) -> bool
        ensures { result ≡ self.now.is_up }
    {
        self.is_up
    }

    /// Takes the reader of the own log out, to be put back.
    pub fn take_reader(&mut self) -> Option<CheckpointReader>
        ensures told { result ≡ self.old.own.reader }
        ensures after { self.new ≡ with_own self.old (own_with self.old.own None) }
    {
        self.own.take_reader()
    }

    pub fn put_reader(&mut self, reader: CheckpointReader)
        ensures { self.new ≡ with_own self.old (own_with self.old.own (Some reader)) }
    {
        self.own.put_reader(reader);
    }
}
