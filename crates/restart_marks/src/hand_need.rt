//! The page in hand: what an intent about it sends, or the first test that it fails.

ghost use Rattle.std.specs.Prelude.{◌≡◌};
ghost use Rattle.restart_marks.specs.HandNeeds.{placed, read_need, read_page_need, test_need, is_first, owner_test, write_need, purge_page_need, unregister_need};

use crate::intent::{RestartSent, RestartTest};
use crate::marks::RestartMarks;
use ds_base::PageId;
use facility::Command;
use lock_names::Name;

impl RestartMarks {
    fn placed(&self) -> Result<PageId, RestartTest>
        ensures { result ≡ placed self.now.hand.page }
    {
        match self.hand.page {
            Some(page) => Ok(page),
            None => Err(RestartTest::NotPlaced),
        }
    }

    pub(crate) fn read_need(&self) -> Result<RestartSent, RestartTest>
        ensures { result ≡ read_need self.now }
    {
        let page = self.placed()?;
        Ok(RestartSent::Command(Command::Read { page, index: 0 }))
    }

    pub(crate) fn read_page_need(&self) -> Result<RestartSent, RestartTest>
        ensures { result ≡ read_page_need self.now }
    {
        let page = self.placed()?;
        if !self.hand.registered {
            return Err(RestartTest::NotRegistered);
        }
        if self.hand.filled {
            return Err(RestartTest::StillFilled);
        }
        Ok(RestartSent::ReadPage(page))
    }

    pub(crate) fn test_need(&self) -> Result<RestartSent, RestartTest>
        ensures { result ≡ test_need self.now }
    {
        self.placed()?;
        if !self.hand.filled {
            return Err(RestartTest::NotFilled);
        }
        Ok(RestartSent::Command(Command::Test { index: 0 }))
    }

    // Whether the page is the first of the retained pages, and its rank is known.
    fn is_first(&self, page: PageId) -> bool
        ensures { result ≡ is_first self.now page }
    {
        match self.pages.first() {
            Some(key) => {
                key.turn != 0 && key.page.set == page.set && key.page.number == page.number
            }
            None => false,
        }
    }

    // A retained page is the first of them; another one is claimed.
    fn test_owner(&self, page: PageId) -> Result<(), RestartTest>
        ensures { result ≡ owner_test self.now page }
    {
        if self.hand.key.is_some() {
            self.test_listed()?;
            if !self.is_first(page) {
                return Err(RestartTest::NotFirst);
            }
        } else if !self.is_claimed(page) {
            return Err(RestartTest::NotClaimed);
        }
        Ok(())
    }

    pub(crate) fn write_need(&self) -> Result<RestartSent, RestartTest>
        ensures { result ≡ write_need self.now }
    {
        let page = self.placed()?;
        if !self.hand.changed {
            return Err(RestartTest::NotChanged);
        }
        if !self.hand.filled {
            return Err(RestartTest::NotFilled);
        }
        if self.hand.last.number() > self.log.stable().number() {
            return Err(RestartTest::NotStable);
        }
        self.test_owner(page)?;
        Ok(RestartSent::Command(Command::Write { page, index: 0 }))
    }

    pub(crate) fn purge_page_need(&self) -> Result<RestartSent, RestartTest>
        ensures { result ≡ purge_page_need self.now }
    {
        let page = self.placed()?;
        self.test_listed()?;
        if self.hand.key.is_none() {
            return Err(RestartTest::NotRetained);
        }
        if !self.hand.brought {
            return Err(RestartTest::NotBrought);
        }
        if self.hand.changed {
            return Err(RestartTest::StillChanged);
        }
        if self.is_claimed(page) {
            return Err(RestartTest::StillClaimed);
        }
        Ok(RestartSent::Command(Command::Purge {
            name: Name::Page(page),
        }))
    }

    pub(crate) fn unregister_need(&self) -> Result<RestartSent, RestartTest>
        ensures { result ≡ unregister_need self.now }
    {
        if !self.is_empty_handed() {
            return Err(RestartTest::StillPlaced);
        }
        Ok(RestartSent::Command(Command::Unregister { index: 0 }))
    }
}
