ghost use Rattle.std.specs.Prelude.{◌≡◌, ◌≢◌};
ghost use Rattle.std.specs.Option.{SomeIff};
ghost use Rattle.ds_base.specs.Ids.{IsLrsn};

use ds_base::Lrsn;
use std::marker::Model;

/// The number of a transaction, which is that of its first record and never 0.
#[derive(Clone, Copy, Debug, PartialEq, Eq)]
pub struct TranNumber {
    number: Lrsn,
}

impl Model for TranNumber {
    ghost use Rattle.std.specs.Prelude.{ℕ, ◌≢◌};

    ghost Value = { ℕ };

    ghost view = { λ t. t.number };

    ghost invariant = { λ t. t.number ≢ 0 };

    ghost inverse = { λ n. record { number = n } };
}

impl TranNumber {
    pub fn new(number: Lrsn) -> Option<TranNumber>
        ensures { SomeIff result (number ≢ 0) number }
    {
        if number.number() == 0 {
            None
        } else {
            Some(TranNumber { number })
        }
    }

    pub fn lrsn(&self) -> Lrsn
        ensures value { result ≡ self.now }
        ensures some { self.now ≢ 0 }
    {
        self.number
    }
}
