use ds_base::Volume;

/// Why a run ended before its script.
#[derive(Clone, Copy, Debug, PartialEq, Eq)]
pub enum RunFault {
    /// A call of the disk failed in a group restart. What was without a fate is stopped.
    Failed,
    /// The byte of a page or a log at this offset can't stand there.
    Damaged { volume: Volume, at: u64 },
    /// What was wanted in this event may not be done.
    Unlawful { place: u64 },
    NoMemory,
}

/// Why a group wasn't started: the group restart that opens the disk didn't come to its end, or memory was wanting.
#[derive(Drop)]
pub struct StartFault<D> {
    pub disk: D,
    pub why: RunFault,
}
