//! Changes that are taken back, and the locks of their pages: what an intent about them sends, or the first test that it
//! fails.

ghost use Rattle.std.specs.Prelude.{◌≡◌};
ghost use Rattle.member_log.specs.Buffers.{is_above};
ghost use Rattle.restart_marks.specs.Moves.{is_claimed_as};
ghost use Rattle.restart_marks.specs.LockNeeds.{page_asked, free_test, lock_test, obtain_need, ask_need, answers_need, grant_need, is_row_retained, undone_hand_test, log_test, has_undo_room, undo_test, undo_need, unchanged_test, release_need};

use crate::intent::{RestartSent, RestartTest};
use crate::marks::RestartMarks;
use ds_base::{LRSN_LIMIT, Lrsn, MemberId, PageId};
use ds_model::RowChange;
use facility::{Command, Indexes};
use lock_names::{Interest, Mode, Name};
use restart_records::page_of;

/// The most bytes of a compensation and of the Ended record behind it.
const UNDO_BYTES: u32 = 259 + 30;

impl RestartMarks {
    // The page of the transaction's newest change that stands.
    fn page_asked(&self, id: Lrsn) -> Result<PageId, RestartTest>
        ensures { result ≡ page_asked self.now id }
    {
        match self.page_undone(id) {
            Some(page) => Ok(page),
            None => Err(RestartTest::NoneStands),
        }
    }

    // The lock of no other page is claimed.
    fn test_free(&self, page: PageId) -> Result<(), RestartTest>
        ensures { result ≡ free_test self.now page }
    {
        if self.claim.is_some() && !self.is_claimed(page) {
            return Err(RestartTest::PagesFull);
        }
        Ok(())
    }

    // All retained pages are recovered, and there is room for the page's lock.
    fn test_lock(&self, id: Lrsn) -> Result<PageId, RestartTest>
        ensures { result ≡ lock_test self.now id }
    {
        let page = self.page_asked(id)?;
        self.test_recovered()?;
        self.test_free(page)?;
        Ok(page)
    }

    pub(crate) fn obtain_need(&self, id: Lrsn) -> Result<RestartSent, RestartTest>
        ensures { result ≡ obtain_need self.now id }
    {
        let page = self.test_lock(id)?;
        Ok(RestartSent::Command(Command::Obtain {
            name: Name::Page(page),
            mode: Mode::X,
        }))
    }

    pub(crate) fn ask_need(&self, id: Lrsn, to: MemberId) -> Result<RestartSent, RestartTest>
        ensures { result ≡ ask_need self.now id to }
    {
        let page = self.page_asked(id)?;
        Ok(RestartSent::Command(Command::Ask {
            slot: 0,
            to,
            name: Name::Page(page),
            mode: Mode::X,
        }))
    }

    pub(crate) fn answers_need(&self, id: Lrsn) -> Result<RestartSent, RestartTest>
        ensures { result ≡ answers_need self.now id }
    {
        self.page_asked(id)?;
        Ok(RestartSent::Command(Command::Answers { slot: 0 }))
    }

    pub(crate) fn grant_need(&self, id: Lrsn) -> Result<RestartSent, RestartTest>
        ensures { result ≡ grant_need self.now id }
    {
        let page = self.test_lock(id)?;
        Ok(RestartSent::Command(Command::Grant {
            slot: 0,
            name: Name::Page(page),
            mode: Mode::X,
        }))
    }

    // Whether the row of the change is known as retained.
    fn is_row_retained(&self, change: &RowChange) -> bool
        ensures { result ≡ is_row_retained self.now change.now }
    {
        self.names
            .mark(&Name::Row(change.table, change.key))
            .retained
    }

    // The page is in hand with its bytes, and claimed.
    fn test_undone_hand(&self, page: PageId) -> Result<(), RestartTest>
        ensures { result ≡ undone_hand_test self.now page self.now.hand.page }
    {
        let Some(own) = self.hand.page else {
            return Err(RestartTest::NotPlaced);
        };
        if own.set != page.set || own.number != page.number {
            return Err(RestartTest::OtherPage);
        }
        if !self.hand.filled {
            return Err(RestartTest::NotFilled);
        }
        if !self.is_claimed(page) {
            return Err(RestartTest::NotClaimed);
        }
        Ok(())
    }

    // The log buffer takes the records of one change that is taken back.
    fn test_log(&self) -> Result<(), RestartTest>
        ensures { result ≡ log_test self.now }
    {
        if self.trans.is_ending() {
            return Err(RestartTest::StillEnding);
        }
        if self.must_append() {
            return Err(RestartTest::AboveLimit);
        }
        if self.log.room() < UNDO_BYTES {
            return Err(RestartTest::NoRoom);
        }
        Ok(())
    }

    /// Whether a record is pending whose number is above the limit: it must go to the log before a number is drawn.
    pub fn must_append(&self) -> bool
        ensures { result ≡ is_above self.now.log LRSN_LIMIT }
    {
        match Lrsn::new(LRSN_LIMIT) {
            Some(limit) => self.log.is_above(limit),
            None => false,
        }
    }

    /// Whether the log buffer has room for one more change that is taken back.
    pub fn has_undo_room(&self) -> bool
        ensures { result ≡ has_undo_room self.now }
    {
        self.log.room() >= UNDO_BYTES
    }

    // The change may be taken back.
    fn test_undo(&self, change: &RowChange) -> Result<(), RestartTest>
        ensures { result ≡ undo_test self.now change.now }
    {
        self.test_recovered()?;
        self.test_undone_hand(page_of(change))?;
        if !self.is_row_retained(change) {
            return Err(RestartTest::NotRetained);
        }
        self.test_log()
    }

    pub(crate) fn undo_need(&self, id: Lrsn) -> Result<RestartSent, RestartTest>
        ensures { result ≡ undo_need self.now id }
    {
        let Some(it) = self.trans.newest(id) else {
            return Err(RestartTest::NoneStands);
        };
        self.test_undo(&it.change)?;
        Ok(RestartSent::Command(Command::DrawUndo {
            indexes: Indexes {
                count: 1,
                at: [0, 0, 0],
            },
        }))
    }

    // The page in hand isn't this page, or isn't changed.
    fn test_unchanged(&self, page: PageId) -> Result<(), RestartTest>
        ensures { result ≡ unchanged_test self.now page }
    {
        if self.is_in_hand(page) && self.hand.changed {
            return Err(RestartTest::StillChanged);
        }
        Ok(())
    }

    /// Whether the page is in hand.
    pub fn is_in_hand(&self, page: PageId) -> bool
        ensures { result ≡ is_claimed_as self.now.hand.page page }
    {
        match self.hand.page {
            Some(own) => own.set == page.set && own.number == page.number,
            None => false,
        }
    }

    pub(crate) fn release_need(&self) -> Result<RestartSent, RestartTest>
        ensures { result ≡ release_need self.now }
    {
        let Some(page) = self.claim else {
            return Err(RestartTest::NotClaimed);
        };
        self.test_unchanged(page)?;
        Ok(RestartSent::Command(Command::Release {
            name: Name::Page(page),
            keeps: Interest {
                share: false,
                exclusive: false,
            },
        }))
    }
}
