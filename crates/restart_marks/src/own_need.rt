//! The own log, the log buffer and retained locks: what an intent about them sends, or the first test that it fails.

ghost use Rattle.std.specs.Prelude.{◌≡◌};
ghost use Rattle.restart_marks.specs.OwnNeeds.{read_log_need, cut_need, listing_need, append_need, recovered_test, listed_test, purge_need, up_need, over_test, rest_test, call_sent};

use crate::intent::{RestartSent, RestartTest};
use crate::marks::RestartMarks;
use facility::Command;
use list_structure::MemberStatus;
use lock_names::Name;
use restart_records::LogCall;

fn call_sent(call: Option<LogCall>) -> Result<RestartSent, RestartTest>
    ensures { result ≡ call_sent call }
{
    match call {
        Some(LogCall::Length) => Ok(RestartSent::LogLength),
        Some(LogCall::Read { at, count }) => Ok(RestartSent::ReadLog { at, count }),
        None => Err(RestartTest::AlreadyRead),
    }
}

impl RestartMarks {
    pub(crate) fn read_log_need(&self) -> Result<RestartSent, RestartTest>
        ensures { result ≡ read_log_need self.now }
    {
        if self.own.is_read() {
            return Err(RestartTest::AlreadyRead);
        }
        call_sent(self.own.next())
    }

    pub(crate) fn cut_need(&self) -> Result<RestartSent, RestartTest>
        ensures { result ≡ cut_need self.now }
    {
        if !self.own.is_read() {
            return Err(RestartTest::NotRead);
        }
        if self.own.tail() == 0 {
            return Err(RestartTest::NoTail);
        }
        Ok(RestartSent::CutLog {
            length: self.own.length(),
        })
    }

    pub(crate) fn listing_need(&self) -> Result<RestartSent, RestartTest>
        ensures { result ≡ listing_need self.now }
    {
        if !self.own.is_read() {
            return Err(RestartTest::NotRead);
        }
        if self.is_listed || self.listed == u32::MAX {
            return Err(RestartTest::AlreadyListed);
        }
        Ok(RestartSent::Command(Command::RetainedAt { n: self.listed }))
    }

    pub(crate) fn append_need(&self) -> Result<RestartSent, RestartTest>
        ensures { result ≡ append_need self.now }
    {
        if self.log.is_empty() {
            return Err(RestartTest::NonePending);
        }
        if self.own.tail() != 0 {
            return Err(RestartTest::HasTail);
        }
        Ok(RestartSent::AppendLog)
    }

    /// All retained locks are known.
    pub(crate) fn test_listed(&self) -> Result<(), RestartTest>
        ensures { result ≡ listed_test self.now }
    {
        if !self.is_listed {
            return Err(RestartTest::NotListed);
        }
        Ok(())
    }

    /// All retained locks are known, and none is of a page.
    pub(crate) fn test_recovered(&self) -> Result<(), RestartTest>
        ensures { result ≡ recovered_test self.now }
    {
        self.test_listed()?;
        if !self.pages.is_empty() {
            return Err(RestartTest::PagesLeft);
        }
        Ok(())
    }

    pub(crate) fn purge_need(&self, name: &Name) -> Result<RestartSent, RestartTest>
        ensures { result ≡ purge_need self.now name.now }
    {
        let mark = self.names.mark(name);
        if !mark.retained {
            return Err(RestartTest::NotRetained);
        }
        if mark.needed != 0 {
            return Err(RestartTest::StillNeeded);
        }
        self.test_recovered()?;
        if self.hand.changed {
            return Err(RestartTest::StillChanged);
        }
        if !self.log.is_empty() {
            return Err(RestartTest::StillPending);
        }
        Ok(RestartSent::Command(Command::Purge { name: *name }))
    }

    // No transaction is open, and each retained lock that is left is claimed by a rollback.
    fn test_over(&self) -> Result<(), RestartTest>
        ensures { result ≡ over_test self.now }
    {
        if self.trans.left() != 0 {
            return Err(RestartTest::StillOpen);
        }
        if self.names.loose() != 0 {
            return Err(RestartTest::SomeLeft);
        }
        Ok(())
    }

    // Nothing is in hand, claimed or pending, and nothing follows the records of the own log.
    fn test_at_rest(&self) -> Result<(), RestartTest>
        ensures { result ≡ rest_test self.now }
    {
        if !self.is_empty_handed() {
            return Err(RestartTest::StillPlaced);
        }
        if self.claim.is_some() {
            return Err(RestartTest::StillClaimed);
        }
        if !self.log.is_empty() {
            return Err(RestartTest::StillPending);
        }
        if self.own.tail() != 0 {
            return Err(RestartTest::HasTail);
        }
        Ok(())
    }

    pub(crate) fn up_need(&self) -> Result<RestartSent, RestartTest>
        ensures { result ≡ up_need self.now }
    {
        self.test_recovered()?;
        self.test_over()?;
        self.test_at_rest()?;
        Ok(RestartSent::Command(Command::SetStatus {
            status: MemberStatus::Up,
        }))
    }
}
