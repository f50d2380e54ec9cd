//! What is kept of the events of a run.

ghost use Rattle.std.specs.Prelude.{◌≡◌};
ghost use Rattle.checked_run.specs.Accounts.{no_account};

use ds_base::Sequence;
use group_core::Cause;
use std::alloc::Global;

/// The numbers of all events in their order, those included that were not taken.
pub type Journal = Sequence<u64>;

/// Transactions that were refused, by number, each with the place of the event in which the cause held.
pub type CauseList = Sequence<Cause>;

/// The places of the events in which a call of the disk failed.
pub type FailList = Sequence<u64>;

/// What is kept of the events of a run. A place is that of an event in the journal, from 1.
#[derive(Drop)]
pub struct Account {
    pub journal: Journal,
    pub causes: CauseList,
    pub faults: FailList,
}

/// The account where nothing was played.
pub fn no_account(alloc: Global) -> Account
    ensures { result ≡ no_account }
{
    Account {
        journal: Sequence::new(alloc),
        causes: Sequence::new(alloc),
        faults: Sequence::new(alloc),
    }
}
