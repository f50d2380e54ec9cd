ghost use Rattle.std.specs.Prelude.{slice_get};
ghost use Rattle.member_effects.specs.Outcomes.{LendsAt, Tells};

use ds_base::{PageId, TranId, Volume};
use list_structure::{MemberStatus, Query};
use lock_names::Name;
use member_needs::Outcome;
use page_format::Page;

/// What an event came to, with the frame of a valid page in place of its bytes.
#[derive(Clone, Copy, Debug, PartialEq, Eq)]
pub enum Told {
    Stepped,
    Granted,
    Conflict { by: TranId },
    Refused,
    Contention { share: u32, exclusive: u32 },
    Moved,
    Cells { open: bool, emptied: bool },
    Query(Query),
    NoQuery,
    Status(MemberStatus),
    Raised(bool),
    Deadlock { slot: u8 },
    NoCycle,
    Released { name: Option<Name> },
    Purged,
    Ended,
    Filled,
    ToFill,
    Invalid,
    Valid { frame: u16 },
    Written,
    Lost,
    CacheFull,
    Drawn,
    Stale { frame: u16 },
    Forced,
    ChangedPage(PageId),
    NoChangedPage,
    Taken,
    NotTaken,
    CastoutWritten,
    CastoutOver,
    Failed,
    Damaged { page: PageId, at: u32 },
}

fn valid_page(pages: &[Page], at: u16) -> Outcome<'_>
    ensures { LendsAt (slice_get pages.now at) result }
{
    match pages.get(at as usize) {
        Some(page) => Outcome::Valid { page },
        None => Outcome::Invalid,
    }
}

/// What the policy is told. The bytes of a page are lent only where its test was just answered as valid.
pub fn outcome_of(pages: &[Page], told: Told) -> Outcome<'_>
    ensures { Tells pages.now told result }
{
    match told {
        Told::Stepped => Outcome::Stepped,
        Told::Granted => Outcome::Granted,
        Told::Conflict { by } => Outcome::Conflict { by },
        Told::Refused => Outcome::Refused,
        Told::Contention { share, exclusive } => Outcome::Contention { share, exclusive },
        Told::Moved => Outcome::Moved,
        Told::Cells { open, emptied } => Outcome::Cells { open, emptied },
        Told::Query(query) => Outcome::Query(query),
        Told::NoQuery => Outcome::NoQuery,
        Told::Status(status) => Outcome::Status(status),
        Told::Raised(is_raised) => Outcome::Raised(is_raised),
        Told::Deadlock { slot } => Outcome::Deadlock { slot },
        Told::NoCycle => Outcome::NoCycle,
        Told::Released { name } => Outcome::Released { name },
        Told::Purged => Outcome::Purged,
        Told::Ended => Outcome::Ended,
        Told::Filled => Outcome::Filled,
        Told::ToFill => Outcome::ToFill,
        Told::Invalid => Outcome::Invalid,
        Told::Valid { frame } => valid_page(pages, frame),
        Told::Written => Outcome::Written,
        Told::Lost => Outcome::Lost,
        Told::CacheFull => Outcome::CacheFull,
        Told::Drawn => Outcome::Drawn,
        Told::Stale { frame } => Outcome::Stale { frame },
        Told::Forced => Outcome::Forced,
        Told::ChangedPage(page) => Outcome::ChangedPage(page),
        Told::NoChangedPage => Outcome::NoChangedPage,
        Told::Taken => Outcome::Taken,
        Told::NotTaken => Outcome::NotTaken,
        Told::CastoutWritten => Outcome::CastoutWritten,
        Told::CastoutOver => Outcome::CastoutOver,
        Told::Failed => Outcome::Failed,
        Told::Damaged { page, at } => Outcome::Damaged {
            volume: Volume::Page(page),
            at: at as u64,
        },
    }
}
