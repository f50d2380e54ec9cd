use ds_base::TranId;

/// A pair of transactions of which one waits for the other: for a lock, or for the flag that it is to raise.
#[derive(Clone, Copy, Debug, PartialEq, Eq)]
pub struct Wait {
    pub waiter: TranId,
    pub holder: TranId,
    /// The awaited flag, 1 to 64, or 0 for a lock.
    pub flag: u8,
}
