use crate::account::Account;
use ds_base::{RowList, Volume};
use ds_model::Report;
use group_core::RunFault;

/// What a disk came to that was opened.
#[derive(Drop)]
pub enum Ended {
    /// The report is sound. Its status is 5 where a call of the disk has failed, and else 0.
    Told(Report),
    /// The byte of a page or a log at this offset can't stand there.
    Damaged { volume: Volume, at: u64 },
    /// What was wanted in this event may not be done; or, where it is 0, the report isn't sound.
    Unsound { event: u64 },
    NoMemory,
}

/// What became of a disk.
#[derive(Drop)]
pub enum Outcome {
    /// It wasn't opened: its logs were not read, or the opening group restart ended so.
    Unopened(RunFault),
    /// It was opened. These are the rows for which its logs stood before.
    Opened { opening: RowList, ended: Ended },
}

/// What a call leaves. Where no disk was opened, and where one was only shown, the account is empty.
#[derive(Drop)]
pub struct Ran<D> {
    pub disk: D,
    pub outcome: Outcome,
    pub account: Account,
}
