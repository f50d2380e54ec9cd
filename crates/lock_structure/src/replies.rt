use ds_base::MemberId;

/// The answer to a request for a lock. Bit `m - 1` of a mask stands for member m.
#[derive(Clone, Copy, Debug, PartialEq, Eq)]
pub enum Obtained {
    /// The lock is the member's; the entry's version is now this.
    Granted {
        version: u64,
    },
    /// A failed member's record of this very name is in the way; of several such members, the lowest.
    Retained {
        by: MemberId,
    },
    /// So many records of table spaces and rows stand, and there is no room for one more.
    RecordsFull {
        limit: u32,
    },
    /// Other members' interest in the entry is in the way: the others with share and with exclusive interest, and the
    /// entry's version.
    Contention {
        share: u32,
        exclusive: u32,
        version: u64,
    },
}

/// The answer to a request for a lock that the other members have been asked about.
#[derive(Clone, Copy, Debug, PartialEq, Eq)]
pub enum GrantReply {
    /// The lock is the member's; the entry's version is now this.
    Granted { version: u64 },
    /// A failed member's record of this very name is in the way; of several such members, the lowest.
    Retained { by: MemberId },
    /// So many records of table spaces and rows stand, and there is no room for one more.
    RecordsFull { limit: u32 },
    /// A member whose interest is in the way hasn't given its consent at this version, which is the entry's.
    Moved { version: u64 },
}
