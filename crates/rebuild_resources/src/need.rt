ghost use Rattle.std.specs.Prelude.{◌≡◌};
ghost use Rattle.rebuild_resources.specs.Needs.{need_of, call_sent, read_log_need, read_page_need, write_page_need, rebuilt_need};

use crate::{Rebuild, RebuildIntent, RebuildSent, RebuildTest};
use checkpoint_reader::LogCall;
use ds_base::MemberId;
use facility::Command;

fn call_sent(member: MemberId, call: LogCall) -> RebuildSent
    ensures { result ≡ call_sent member call }
{
    match call {
        LogCall::Length => RebuildSent::LogLength(member),
        LogCall::Read { at, count } => RebuildSent::ReadLog { member, at, count },
    }
}

impl Rebuild {
    fn read_log_need(&self) -> Result<RebuildSent, RebuildTest>
        ensures { result ≡ read_log_need self.now }
    {
        if !self.claimed {
            return Err(RebuildTest::NotClaimed);
        }
        if self.merged.is_some() {
            return Err(RebuildTest::AlreadyRead);
        }
        Ok(call_sent(self.reader.member(), self.reader.next()))
    }

    fn read_page_need(&self) -> Result<RebuildSent, RebuildTest>
        ensures { result ≡ read_page_need self.now }
    {
        if !self.claimed {
            return Err(RebuildTest::NotClaimed);
        }
        if self.merged.is_none() {
            return Err(RebuildTest::NotRead);
        }
        if self.hand.is_some() {
            return Err(RebuildTest::NotWritten);
        }
        match self.pages.first() {
            Some(first) => Ok(RebuildSent::ReadPage(first.page)),
            None => Err(RebuildTest::AlreadyBrought),
        }
    }

    fn write_page_need(&self) -> Result<RebuildSent, RebuildTest>
        ensures { result ≡ write_page_need self.now }
    {
        if !self.claimed {
            return Err(RebuildTest::NotClaimed);
        }
        match self.hand {
            Some(page) => Ok(RebuildSent::WritePage(page)),
            None => Err(RebuildTest::NotChanged),
        }
    }

    fn rebuilt_need(&self) -> Result<RebuildSent, RebuildTest>
        ensures { result ≡ rebuilt_need self.now }
    {
        if !self.claimed {
            return Err(RebuildTest::NotClaimed);
        }
        if self.merged.is_none() {
            return Err(RebuildTest::NotRead);
        }
        if self.pages.len() != 0 {
            return Err(RebuildTest::NotBrought);
        }
        if self.hand.is_some() {
            return Err(RebuildTest::NotWritten);
        }
        Ok(RebuildSent::Command(Command::Rebuilt))
    }

    /// What the intent sends, or the first test that fails.
    pub fn need(&self, intent: &RebuildIntent) -> Result<RebuildSent, RebuildTest>
        ensures { result ≡ need_of self.now intent.now }
    {
        match *intent {
            RebuildIntent::Step => Ok(RebuildSent::None),
            RebuildIntent::Claim => Ok(RebuildSent::Command(Command::Claim)),
            RebuildIntent::ReadLog => self.read_log_need(),
            RebuildIntent::ReadPage => self.read_page_need(),
            RebuildIntent::WritePage => self.write_page_need(),
            RebuildIntent::Rebuilt => self.rebuilt_need(),
            RebuildIntent::Unclaim => Ok(RebuildSent::Command(Command::Unclaim)),
        }
    }
}
