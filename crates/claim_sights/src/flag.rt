use ds_base::TranId;

/// A flag that a transaction awaits, and the one that is to raise it.
#[derive(Clone, Copy, Debug, PartialEq, Eq)]
pub struct Flag {
    pub number: u8,
    pub raiser: TranId,
}
