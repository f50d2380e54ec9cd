//! Castout of a page to the disk.

ghost use Rattle.std.specs.Prelude.{◌≡◌};
ghost use Rattle.member_needs.specs.Castout.{done, cast_need, done_need};

use ds_base::PageId;
use member_intents::{Command, Sent, Test};

/// The page that was read to be cast out, and whether it was written.
#[derive(Clone, Copy, Debug, PartialEq, Eq)]
pub struct Cast {
    pub page: PageId,
    pub is_written: bool,
}

fn done(page: PageId) -> Sent
    ensures { result ≡ done page }
{
    Sent::Command(Command::CastoutDone { page })
}

/// The page is written under its castout lock. Where the member doesn't hold it any more, the castout is done.
pub fn cast_need(cast: Option<Cast>, is_holder: bool) -> Result<Sent, Test>
    ensures { result ≡ cast_need cast is_holder }
{
    match cast {
        None => Err(Test::NotTaken),
        Some(cast) if cast.is_written => Err(Test::NotTaken),
        Some(cast) if is_holder => Ok(Sent::WritePage(cast.page)),
        Some(cast) => Ok(done(cast.page)),
    }
}

pub fn done_need(cast: Option<Cast>, is_holder: bool) -> Result<Sent, Test>
    ensures { result ≡ done_need cast is_holder }
{
    match cast {
        None => Err(Test::NotTaken),
        Some(cast) if !cast.is_written && is_holder => Err(Test::NotWritten),
        Some(cast) => Ok(done(cast.page)),
    }
}
