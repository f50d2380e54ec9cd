use crate::{Fate, Tran};
use ds_base::MemberId;

/// A transaction of a history: who has played it, and what became of it.
#[derive(Debug, Drop)]
pub struct Entry {
    pub member: MemberId,
    pub tran: Tran,
    pub fate: Fate,
}
