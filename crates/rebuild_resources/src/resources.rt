ghost use Rattle.std.specs.Prelude.{◌≡◌, length, IfOk, OnOk};
ghost use Rattle.rebuild_resources.specs.State.{IsNewRebuild, IsReaderOf, Begins, given_up};

use checkpoint_reader::{CheckpointReader, KnownEnds};
use ds_base::{MemberId, NoMemory, PageId};
use log_merge::Merged;
use page_format::Page;
use page_records::PageRecords;
use restart_plan::{Logs, Queue};
use std::alloc::Global;
use std::marker::Model;

/// What a member holds that rebuilds the lost cache.
#[derive(Drop)]
pub struct Rebuild {
    pub(crate) member: MemberId,
    /// It has the claim, and the cache isn't rebuilt.
    pub(crate) claimed: bool,
    /// Of the log that is read.
    pub(crate) reader: CheckpointReader,
    /// Up to where the logs are known to be whole records.
    pub(crate) known: KnownEnds,
    /// Those that are read under this claim, until all are.
    pub(crate) logs: Logs,
    /// The records of all logs, once they are read.
    pub(crate) merged: Option<Merged>,
    /// The pages that they name and that aren't brought forward yet.
    pub(crate) pages: Queue<PageRecords>,
    /// The page that is to be written, since records have changed it.
    pub(crate) hand: Option<PageId>,
    pub(crate) page: Page,
}

impl Model for Rebuild {
    ghost use Rattle.rebuild_resources.specs.State.{RebuildState};

    ghost Value = { RebuildState };

    ghost view = { λ r. record { member = r.member; claimed = r.claimed; reader = r.reader; known = r.known; logs = r.logs; merged = r.merged; pages = r.pages; hand = r.hand; page = r.page } };
}

// A reader of the first log.
fn first_reader(alloc: Global, known: &KnownEnds) -> Result<CheckpointReader, NoMemory>
    ensures { IfOk result (IsReaderOf known.now 1) }
{
    let Some(member) = MemberId::new(1) else {
        unreachable!()
    };
    CheckpointReader::new(alloc, member, known.of(member))
}

impl Rebuild {
    /// Nothing is claimed or read yet. Up to these ends the logs are known to be whole records.
    pub fn new(alloc: Global, member: MemberId, known: &KnownEnds) -> Result<Rebuild, NoMemory>
        ensures fresh { IfOk result (IsNewRebuild member) }
        ensures known { IfOk result (λ rebuild. rebuild.known ≡ known.now) }
    {
        Ok(Rebuild {
            member,
            known: known.copied(),
            claimed: false,
            reader: first_reader(alloc, known)?,
            logs: Logs::new(alloc),
            merged: None,
            pages: Queue::new(alloc),
            hand: None,
            page: Page::zero(alloc)?,
        })
    }

    /// The member that rebuilds.
    pub fn member(&self) -> MemberId
        ensures { result ≡ self.now.member }
    {
        self.member
    }

    /// How many pages that the logs name aren't brought forward yet.
    pub fn pages_left(&self) -> usize
        ensures { result ≡ length self.now.pages }
    {
        self.pages.len()
    }

    // What was read is gone, and no claim stands.
    pub(crate) fn give_up(&mut self, alloc: Global)
        ensures { self.new ≡ given_up self.old }
    {
        self.claimed = false;
        self.logs = Logs::new(alloc);
        self.merged = None;
        self.pages = Queue::new(alloc);
        self.hand = None;
    }

    // The claim stands, and nothing is read under it.
    pub(crate) fn begin(&mut self, alloc: Global) -> Result<(), NoMemory>
        ensures { OnOk result (Begins self.old self.new) }
    {
        self.reader = first_reader(alloc, &self.known)?;
        self.give_up(alloc);
        self.claimed = true;
        Ok(())
    }
}
