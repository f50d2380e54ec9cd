use ds_base::{MemberId, TranId};
use ds_model::{Cycle, Name};

/// What is to be looked for in a run.
#[derive(Drop)]
pub struct Quest {
    /// The transaction that is asked about.
    pub tran: TranId,
    /// Those for which it waited in a cycle.
    pub others: Cycle,
    /// The event at which a lock was in its way and it was refused for that; 0 where there is none.
    pub cause: u64,
    /// The lock that was in its way, where the refusal names it.
    pub name: Option<Name>,
    /// The failed member that retained it.
    pub retainer: Option<MemberId>,
}
