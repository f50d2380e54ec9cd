use ds_base::{Bytes, Key, MemberId, Sequence, TableId, Value};

/// One line of a transaction. Flags are 1 to 64.
#[derive(Clone, Copy, Debug)]
pub enum Op {
    /// Reads a row.
    Get {
        table: TableId,
        key: Key,
    },
    /// Reads a row for update: as `Get`, but no other transaction that means to change the row reads it meanwhile.
    Getu {
        table: TableId,
        key: Key,
    },
    /// Sets a row.
    Put {
        table: TableId,
        key: Key,
        value: Value,
    },
    /// Removes a row.
    Del {
        table: TableId,
        key: Key,
    },
    /// Reads the rows from `low` to `high`, both included.
    Scan {
        table: TableId,
        low: Key,
        high: Key,
    },
    /// Raises a flag of the phase.
    Raise {
        flag: u8,
    },
    /// Waits until a flag of the phase is raised.
    Await {
        flag: u8,
    },
    /// The cache structure is lost here.
    LoseCache,
    /// Rolls the transaction back.
    Abort,
}

pub type OpList = Sequence<Op>;

/// A transaction. Its number is its place in the script, from 1.
#[derive(Debug, Drop)]
pub struct Tran {
    pub name: Bytes,
    pub number: u32,
    /// Whether it waits at a conflict, or is refused.
    pub wait: bool,
    pub ops: OpList,
}

pub type TranList = Sequence<Tran>;

/// Where a member fails: in place of its n-th event of the phase, of its n-th append with a Commit
/// record, of the event behind that append, or of its raise of a flag.
#[derive(Clone, Copy, Debug, PartialEq, Eq)]
pub enum FailAt {
    Command(u32),
    Commit(u32),
    Committed(u32),
    Raise(u8),
}

/// What a member does in a phase.
#[derive(Debug, Drop)]
pub struct Part {
    pub member: MemberId,
    pub restart: bool,
    pub fail: Option<FailAt>,
    pub trans: TranList,
}

pub type PartList = Sequence<Part>;

/// A phase: how often the group fails before it, and the parts of its members in the order of the script.
#[derive(Debug, Drop)]
pub struct Phase {
    pub groupfails: u32,
    pub parts: PartList,
}

pub type PhaseList = Sequence<Phase>;

/// A script, and how often the group fails behind its last phase.
#[derive(Debug, Drop)]
pub struct Script {
    pub phases: PhaseList,
    pub groupfails: u32,
}

/// What may be wrong with a line of a script.
///
/// A line may have several faults. The first of them in the order of the variants counts.
#[derive(Clone, Copy, Debug, PartialEq, Eq)]
pub enum FaultKind {
    /// It has a byte behind the longest script, or begins one phase, transaction or operation too many.
    TooLong,
    /// It isn't ASCII, its first word may not stand here, or its words are too many, too few or of another form.
    Word,
    /// A number isn't 1 to 20 digits, or is out of its range.
    Number,
    /// What a row is set to isn't `=` and a value.
    Value,
    /// There is no such member, or the member has a part in this phase already.
    Member,
    /// A name isn't 1 to 16 letters, digits, `-` or `_`, or was used before.
    Name,
    /// The member restarts, and no earlier phase lets it fail.
    Restart,
    /// A flag is used in a transaction that isn't the first of its part, or is raised by an earlier one too.
    Flag,
    /// The text ends inside a transaction. The line is the one after the last.
    End,
}

/// The first line of a text that makes it no script, counted from 1, and what is wrong with it.
#[derive(Clone, Copy, Debug, PartialEq, Eq)]
pub struct ScriptFault {
    pub line: u32,
    pub kind: FaultKind,
}
