//! Which records of a log are kept.

ghost use Rattle.std.specs.Prelude.{◌≡◌};
ghost use Rattle.opening_rows.specs.Kept.{keeps_of};

use std::collections::BTreeSet;

/// Of which transactions the records of a log are kept.
#[derive(Drop)]
pub enum Keeps {
    /// Of each: all but the records that belong to none.
    Each,
    /// Of these.
    These { trans: BTreeSet<u128> },
}

impl Keeps {
    /// Whether the records of the transaction are kept; 0 is the number of none.
    pub fn has(&self, tran: u128) -> bool
        ensures { result ≡ keeps_of self.now tran }
    {
        match self {
            Keeps::Each => tran != 0,
            Keeps::These { trans } => trans.contains(&tran),
        }
    }
}
