use ds_base::Volume;

/// Where a rebuild stands.
#[derive(Clone, Copy)]
pub enum Stage {
    Claim,
    /// The logs are read.
    ReadLog,
    /// The next page that they name is read.
    ReadPage,
    /// That page was changed by records.
    WritePage,
    Rebuilt,
    Unclaim,
}

/// How a rebuild has ended.
#[derive(Clone, Copy, Debug, PartialEq, Eq)]
pub enum Ended {
    /// The cache isn't lost any more, and the member has no claim.
    Done,
    /// A disk call failed.
    Failed,
    /// The byte at this offset can't stand there.
    Damaged { volume: Volume, at: u64 },
}
