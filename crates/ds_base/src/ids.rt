ghost use Rattle.std.specs.Prelude.{◌≡◌, ℕ, ◌<◌, ◌≤◌, ◌^◌};
ghost use Rattle.std.specs.Option.{SomeIff};
ghost use Rattle.ds_base.specs.Ids.{IsMember, IsTable, IsLrsn};

use std::marker::Model;

/// How many bytes a log record sequence number has.
pub const LRSN_WIDTH: u32 = 10;

/// How many bytes it has in log records and pages of version 1.
pub const OLD_LRSN_WIDTH: u32 = 6;

/// The least number that is no log record sequence number.
pub const LRSN_END: u128 = 1 << (8 * LRSN_WIDTH);

/// The last number that new work draws. The numbers above it are for compensations alone.
pub const LRSN_LIMIT: u128 = LRSN_END - (1 << 24);

/// A member of the group, 1 to 32.
#[derive(Clone, Copy, Debug, PartialEq, Eq, PartialOrd, Ord)]
pub struct MemberId {
    number: u8,
}

impl Model for MemberId {
    ghost Value = { ℕ };

    ghost view = { λ m. m.number };

    ghost invariant = { λ m. IsMember m.number };

    ghost inverse = { λ n. record { number = n } };
}

impl MemberId {
    pub fn new(n: u64) -> Option<MemberId>
        ensures { SomeIff result (IsMember n) n }
    {
        if 1 <= n && n <= 32 {
            Some(MemberId { number: n as u8 })
        } else {
            None
        }
    }

    pub fn number(&self) -> u64
        ensures value { result ≡ self.now }
        ensures range { IsMember self.now }
    {
        self.number as u64
    }
}

/// A table, 1 to 64.
#[derive(Clone, Copy, Debug, PartialEq, Eq, PartialOrd, Ord)]
pub struct TableId {
    number: u8,
}

impl Model for TableId {
    ghost Value = { ℕ };

    ghost view = { λ t. t.number };

    ghost invariant = { λ t. IsTable t.number };

    ghost inverse = { λ n. record { number = n } };
}

impl TableId {
    pub fn new(n: u64) -> Option<TableId>
        ensures { SomeIff result (IsTable n) n }
    {
        if 1 <= n && n <= 64 {
            Some(TableId { number: n as u8 })
        } else {
            None
        }
    }

    pub fn number(&self) -> u64
        ensures value { result ≡ self.now }
        ensures range { IsTable self.now }
    {
        self.number as u64
    }
}

/// A log record sequence number (LRSN), below 2^80. The numbers are common to the group and order the merged logs.
#[derive(Clone, Copy, Debug, PartialEq, Eq, PartialOrd, Ord)]
pub struct Lrsn {
    number: u128,
}

impl Model for Lrsn {
    ghost Value = { ℕ };

    ghost view = { λ l. l.number };

    ghost invariant = { λ l. IsLrsn l.number };

    ghost inverse = { λ n. record { number = n } };
}

impl Lrsn {
    pub fn new(n: u128) -> Option<Lrsn>
        ensures { SomeIff result (IsLrsn n) n }
    {
        if n < LRSN_END {
            Some(Lrsn { number: n })
        } else {
            None
        }
    }

    pub fn number(&self) -> u128
        ensures value { result ≡ self.now }
        ensures range { IsLrsn self.now }
    {
        self.number
    }
}
