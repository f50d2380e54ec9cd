ghost use Rattle.restart_resources.specs.Outcomes.{Tells};

use ds_base::{MemberId, Volume};
use list_structure::MemberStatus;
use lock_names::Name;
use page_format::Page;
use restart_marks::RestartTold;

/// What an event of a restart came to, as the policy is told.
#[derive(Drop)]
pub enum RestartOutcome<'a> {
    /// Nothing was sent, or the reply tells nothing.
    Stepped,
    // ---- the own log
    /// More of it is to be read.
    LogBlock,
    /// It is read whole.
    LogWhole,
    TailCut,
    // ---- retained locks
    Record(Name),
    /// All are known.
    NoRecord,
    Purged,
    // ---- the page in hand
    /// It is registered, and is to be filled from the disk.
    ToFill,
    /// It has the disk's bytes.
    Filled,
    Invalid,
    /// Its bit is set in this event. A retained page is brought forward.
    Ready { page: &'a Page },
    Written,
    Lost,
    CacheFull,
    // ---- the page's lock
    Granted,
    /// A failed member's lock is in the way.
    Retained { by: MemberId },
    /// There is no room for another record of a lock.
    RecordsFull,
    /// Members have interest in the name's entry: bit `m - 1` stands for member m.
    Contention { share: u32, exclusive: u32 },
    /// The entry changed since the others were asked.
    Moved,
    /// `open`: one of those asked hasn't answered yet; `emptied`: one is to be asked again.
    Cells { open: bool, emptied: bool },
    Status(MemberStatus),
    Released,
    // ---- log records
    /// A change was taken back in this page.
    Undone { page: &'a Page },
    /// The copy in hand isn't valid any more, and nothing was drawn.
    Stale,
    /// The log buffer stands in the log.
    Forced,
    // ---- ends
    Up,
    /// The disk call failed.
    Failed,
    /// A byte can't stand here.
    Damaged { volume: Volume, at: u64 },
}

/// What the policy is told. The bytes of the page are lent only where its copy is valid in this event.
pub fn outcome_of(page: &Page, told: RestartTold) -> RestartOutcome<'_>
    ensures { Tells page.now told result }
{
    match told {
        RestartTold::Stepped => RestartOutcome::Stepped,
        RestartTold::LogBlock => RestartOutcome::LogBlock,
        RestartTold::LogWhole => RestartOutcome::LogWhole,
        RestartTold::TailCut => RestartOutcome::TailCut,
        RestartTold::Record(name) => RestartOutcome::Record(name),
        RestartTold::NoRecord => RestartOutcome::NoRecord,
        RestartTold::Purged => RestartOutcome::Purged,
        RestartTold::ToFill => RestartOutcome::ToFill,
        RestartTold::Filled => RestartOutcome::Filled,
        RestartTold::Invalid => RestartOutcome::Invalid,
        RestartTold::Ready => RestartOutcome::Ready { page },
        RestartTold::Written => RestartOutcome::Written,
        RestartTold::Lost => RestartOutcome::Lost,
        RestartTold::CacheFull => RestartOutcome::CacheFull,
        RestartTold::Granted => RestartOutcome::Granted,
        RestartTold::Retained { by } => RestartOutcome::Retained { by },
        RestartTold::RecordsFull => RestartOutcome::RecordsFull,
        RestartTold::Contention { share, exclusive } => {
            RestartOutcome::Contention { share, exclusive }
        }
        RestartTold::Moved => RestartOutcome::Moved,
        RestartTold::Cells { open, emptied } => RestartOutcome::Cells { open, emptied },
        RestartTold::Status(status) => RestartOutcome::Status(status),
        RestartTold::Released => RestartOutcome::Released,
        RestartTold::Undone => RestartOutcome::Undone { page },
        RestartTold::Stale => RestartOutcome::Stale,
        RestartTold::Forced => RestartOutcome::Forced,
        RestartTold::Up => RestartOutcome::Up,
        RestartTold::Failed => RestartOutcome::Failed,
        RestartTold::Damaged { volume, at } => RestartOutcome::Damaged { volume, at },
    }
}
