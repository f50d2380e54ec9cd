use ds_base::Lrsn;
use ds_model::{Refusal, RowChange};

/// How far a transaction is.
#[derive(Clone, Copy, Debug, PartialEq, Eq)]
pub enum Stage {
    /// The slot has none.
    Free,
    /// It may take locks and change rows.
    Forward,
    /// Its Commit record waits in the log buffer.
    Drawn,
    /// Its Commit record stands in the log.
    Decided,
    /// It was refused, and its changes are taken back.
    Undoing,
    /// Its rollback is postponed, and stands apart. The slot keeps its number.
    Postponed,
}

/// Whose a transaction is.
#[derive(Clone, Copy, Debug, PartialEq, Eq)]
pub enum Owner {
    /// The agent of this slot.
    Slot(u8),
    /// A postponed rollback, by the number of its first record in the log.
    Rollback(Lrsn),
}

/// A row change that stands, by the number of its record.
#[derive(Debug, Drop)]
pub struct Change {
    pub lrsn: Lrsn,
    pub change: RowChange,
}

/// A refusal that this event allows for the owner's transaction, and the event in which its cause held.
#[derive(Debug, Drop)]
pub struct Offer {
    pub owner: Owner,
    pub refusal: Refusal,
    pub place: u64,
}

/// A transaction that was refused in this event, by its number in the script.
#[derive(Debug, Drop)]
pub struct Refused {
    pub number: u32,
    pub refusal: Refusal,
    pub place: u64,
}
