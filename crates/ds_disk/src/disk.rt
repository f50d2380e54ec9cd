ghost use Rattle.std.specs.Prelude.{◌≡◌, ℕ, ◌+◌, ◌-◌, ◌≤◌, ◌++◌, ◌⊎◌, min, List, Bool, Option, Some, length, take, drop, IfOk};
ghost use Rattle.std.specs.FinMap as map;
ghost use Rattle.ds_disk.specs.declared.disk.DiskError.TheVariants as errors;

use ds_base::{MemberId, NoMemory, PageId};
use thiserror::Error;

/// Why a call of a disk gave no answer.
#[derive(Clone, Copy, Debug, PartialEq, Eq, Error)]
pub enum DiskError {
    /// The disk has counted a fault.
    #[error("the disk failed")]
    Failed,
    /// Nothing was changed.
    #[error("out of memory")]
    NoMemory,
}

impl From<NoMemory> for DiskError {
    ghost from_gives = { λ _ e. e ≡ errors.NoMemory };

    fn from(_: NoMemory) -> Self {
        DiskError::NoMemory
    }
}

/// The calls of a disk.
#[derive(Clone, Copy, Debug, PartialEq, Eq)]
pub enum DiskOp {
    ReadPage,
    WritePage,
    AppendLog,
    LogLength,
    ReadLog,
    CutLog,
}

/// A failure that is planned for a disk in memory: the call of this kind with this number fails.
///
/// Calls of a kind are numbered from 1, those that fail too. The numbers end at 2^64 - 1, which every later
/// call has. Of two failures for one call the first in the list decides.
///
/// Where `dies` is a number the disk is dead afterwards. An append then keeps its first so many bytes, or all
/// if it has fewer; a page write and a cut are done where the number isn't 0.
#[derive(Clone, Copy, Debug)]
pub struct DiskFailure {
    pub call: DiskOp,
    pub number: u64,
    pub dies: Option<u64>,
}

/// Pages of 4,096 bytes, and a log for each member.
///
/// A page that was never written reads as zeros. An append that answered `Ok` is stable.
pub trait Disk {
    ghost use Rattle.ds_disk.specs.Pages.{PagesAreBytes, page_at};
    ghost use Rattle.ds_disk.specs.Contents.{Contents, Same, log_of, with_log};
    ghost use Rattle.ds_disk.specs.Logs.{LogsAreBytes};
    ghost use Rattle.ds_disk.specs.Answers.{Answers, HasCause, Appended};

    /// What it holds, where it tells.
    ghost contents: { Self → Option Contents };

    /// Whether it still answers.
    ghost alive: { Self → Bool };

    /// How often it has failed.
    ghost faults: { Self → ℕ };

    /// There is a log for each of the 32 members.
    ghost has_logs: { (disk : Self) (c : Contents) → contents disk ≡ Some c → length c.logs ≡ 32 };

    /// Each page is of bytes.
    ghost pages_are_bytes: { (disk : Self) (c : Contents) → contents disk ≡ Some c → PagesAreBytes c.pages };

    /// Each log is of bytes, and of a length that 64 bits can count.
    ghost logs_are_bytes: { (disk : Self) (c : Contents) → contents disk ≡ Some c → LogsAreBytes c.logs };

    fn read_page(&mut self, id: PageId, into: &mut [u8; 4096]) -> Result<(), DiskError>
        ensures answers { Answers (alive self.old) (alive self.new) (contents self.old) (contents self.new) result
            (λ _ c d. (d ≡ c) × (into.new ≡ page_at c.pages id)) Same }
        ensures cause { HasCause (faults self.old) (faults self.new) result };

    fn write_page(&mut self, id: PageId, from: &[u8; 4096]) -> Result<(), DiskError>
        ensures answers { Answers (alive self.old) (alive self.new) (contents self.old) (contents self.new) result
            (λ _ c d. d ≡ record c { pages = map.insert c.pages id from.now })
            (λ c d. (d ≡ c) ⊎ (d ≡ record c { pages = map.insert c.pages id from.now })) }
        ensures cause { HasCause (faults self.old) (faults self.new) result };

    /// Adds bytes at a log's end.
    fn append_log(&mut self, member: MemberId, bytes: &[u8]) -> Result<(), DiskError>
        ensures answers { Answers (alive self.old) (alive self.new) (contents self.old) (contents self.new) result
            (λ _ c d. d ≡ with_log c member (log_of c.logs member ++ bytes.now))
            (Appended member bytes.now) }
        ensures cause { HasCause (faults self.old) (faults self.new) result };

    /// The length of a log in bytes.
    fn log_length(&mut self, member: MemberId) -> Result<u64, DiskError>
        ensures answers { Answers (alive self.old) (alive self.new) (contents self.old) (contents self.new) result
            (λ n c d. (d ≡ c) × (n ≡ length (log_of c.logs member))) Same }
        ensures cause { HasCause (faults self.old) (faults self.new) result };

    /// Reads a log from the byte `at` on, and answers how many bytes there were.
    fn read_log(&mut self, member: MemberId, at: u64, into: &mut [u8]) -> Result<usize, DiskError>
        ensures answers { Answers (alive self.old) (alive self.new) (contents self.old) (contents self.new) result
            (λ n c d. (d ≡ c) × (n ≡ min (length into.new) (length (log_of c.logs member) - at)) × (take n into.new ≡ take n (drop at (log_of c.logs member)))) Same }
        ensures bound { IfOk result (λ n. n ≤ length into.new) }
        ensures cause { HasCause (faults self.old) (faults self.new) result };

    /// Keeps the first `length` bytes of a log, or all of one that isn't longer.
    fn cut_log(&mut self, member: MemberId, length: u64) -> Result<(), DiskError>
        ensures answers { Answers (alive self.old) (alive self.new) (contents self.old) (contents self.new) result
            (λ _ c d. d ≡ with_log c member (take length (log_of c.logs member)))
            (λ c d. (d ≡ c) ⊎ (d ≡ with_log c member (take length (log_of c.logs member)))) }
        ensures cause { HasCause (faults self.old) (faults self.new) result };
}
