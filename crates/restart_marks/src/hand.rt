//! The page in hand.

ghost use Rattle.std.specs.Prelude.{◌≡◌, if◌then◌else◌, OnOk, OnErr};
ghost use Rattle.restart_marks.specs.declared.told.RestartTold.TheVariants as told;
ghost use Rattle.restart_marks.specs.State.{with_hand, no_hand};
ghost use Rattle.restart_marks.specs.Hands.{parked_told, read_told, read_after, tested_told, tested_after, filled_after, written_told, written_after, ranked_after, brought_after, met, ready_after};

use crate::marks::RestartMarks;
use crate::told::RestartTold;
use ds_base::{Lrsn, NoMemory, PageId};
use facility::Reply;
use restart_records::{TurnKey, no_number};
use write_order::Rank;

/// The page in hand, under index 0.
#[derive(Clone, Copy, Debug, PartialEq, Eq)]
pub struct Hand {
    pub page: Option<PageId>,
    /// Where it stands among the retained pages, if it was taken up as one of them.
    pub key: Option<TurnKey>,
    pub registered: bool,
    pub filled: bool,
    pub changed: bool,
    /// Whether it was brought forward by the own log.
    pub brought: bool,
    /// The number of the last change that was made to it here.
    pub last: Lrsn,
}

impl Hand {
    pub fn empty() -> Hand
        ensures { result ≡ no_hand }
    {
        Hand {
            page: None,
            key: None,
            registered: false,
            filled: false,
            changed: false,
            brought: false,
            last: no_number(),
        }
    }
}

// Where the cache is lost or has no room.
fn parked(reply: &Reply) -> RestartTold
    ensures { result ≡ parked_told reply.now }
{
    match reply {
        Reply::Lost => RestartTold::Lost,
        Reply::CacheFull => RestartTold::CacheFull,
        _ => RestartTold::Stepped,
    }
}

// Without bytes in the cache, only a changed page has its bytes.
fn without_data(changed: bool) -> RestartTold
    ensures { result ≡ (if changed then told.Ready else told.ToFill) }
{
    if changed {
        RestartTold::Ready
    } else {
        RestartTold::ToFill
    }
}

impl RestartMarks {
    /// The reply to `read`. A changed page keeps its bytes.
    pub fn read(&mut self, reply: &Reply) -> RestartTold
        ensures told { result ≡ read_told self.old.hand reply.now }
        ensures after { self.new ≡ with_hand self.old (read_after self.old.hand reply.now) }
    {
        match reply {
            Reply::Found => {
                self.hand.registered = true;
                self.hand.filled = true;
                RestartTold::Ready
            }
            Reply::NoData => {
                self.hand.registered = true;
                self.hand.filled = self.hand.changed;
                without_data(self.hand.changed)
            }
            _ => parked(reply),
        }
    }

    /// The page was read from the disk.
    pub fn page_read(&mut self) -> RestartTold
        ensures told { result ≡ told.Filled }
        ensures after { self.new ≡ with_hand self.old (filled_after self.old.hand) }
    {
        self.hand.filled = true;
        RestartTold::Filled
    }

    /// The reply to `test`.
    pub fn tested(&mut self, reply: &Reply) -> RestartTold
        ensures told { result ≡ tested_told reply.now }
        ensures after { self.new ≡ with_hand self.old (tested_after self.old.hand reply.now) }
    {
        match reply {
            Reply::Valid => {
                self.hand.registered = true;
                RestartTold::Ready
            }
            _ => {
                self.hand.registered = false;
                RestartTold::Invalid
            }
        }
    }

    /// The reply to `write`.
    pub fn written(&mut self, reply: &Reply) -> RestartTold
        ensures told { result ≡ written_told reply.now }
        ensures after { self.new ≡ with_hand self.old (written_after self.old.hand reply.now) }
    {
        match reply {
            Reply::Written => {
                self.hand.changed = false;
                self.hand.registered = true;
                RestartTold::Written
            }
            _ => parked(reply),
        }
    }

    // The rank of the retained page in hand is known.
    fn note_rank(&mut self, key: TurnKey, ranked: TurnKey) -> Result<(), NoMemory>
        ensures ok { OnOk result (self.new ≡ ranked_after self.old key ranked) }
        ensures err { OnErr result (self.new ≡ self.old) }
    {
        if key.turn != 0 {
            return Ok(());
        }
        self.pages.put(ranked)?;
        self.pages.remove(key);
        self.hand.key = Some(ranked);
        Ok(())
    }

    fn note_brought(&mut self, raised: bool, number: Lrsn)
        ensures { self.new ≡ with_hand self.old (brought_after self.old.hand raised number) }
    {
        self.hand.brought = true;
        if raised {
            self.hand.changed = true;
            self.hand.last = number;
        }
    }

    /// This number was met.
    pub(crate) fn meet(&mut self, number: Lrsn)
        ensures { self.new ≡ met self.old number }
    {
        self.counter = self.counter.max(number.number());
    }

    /// The page in hand has this number and rank, and its bit is set in this event. A retained one was brought forward;
    /// `raised` says whether the own log has changed it.
    pub fn note_ready(&mut self, raised: bool, number: Lrsn, rank: &Rank) -> Result<(), NoMemory>
        ensures ok { OnOk result (self.new ≡ ready_after self.old raised number rank.now) }
        ensures err { OnErr result (self.new ≡ self.old) }
    {
        if let (Some(key), Some(page)) = (self.hand.key, self.hand.page) {
            self.note_rank(key, TurnKey::of(page, rank))?;
            self.note_brought(raised, number);
        }
        self.meet(number);
        Ok(())
    }
}
