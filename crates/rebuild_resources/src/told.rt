use ds_base::{MemberId, Volume};

/// What an event of a rebuild came to, as the policy is told.
#[derive(Clone, Copy, Debug)]
pub enum RebuildTold {
    /// Nothing was sent, or the reply tells nothing.
    Stepped,
    // ---- the claim
    Claimed,
    /// This member has the claim.
    Taken { by: MemberId },
    /// The cache isn't lost.
    NotLost,
    /// The cache isn't lost any more.
    Rebuilt,
    /// The claim is given up.
    Unclaimed,
    // ---- logs
    /// More of them is to be read.
    LogBlock,
    /// All are read whole.
    LogsWhole,
    // ---- pages
    /// The page is brought forward. It is to be written where records have changed it.
    Brought { is_changed: bool },
    Written,
    // ---- ends
    /// The disk call failed.
    Failed,
    /// A byte can't stand here.
    Damaged { volume: Volume, at: u64 },
}
