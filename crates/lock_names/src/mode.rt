/// What a lock lets its owner do with what it is on, and what it lets others do.
///
/// The intent modes are for a table space whose rows or pages are locked one by one.
#[derive(Clone, Copy, Debug, PartialEq, Eq)]
pub enum Mode {
    /// Intent to share: to read parts that are locked one by one.
    IS,
    /// Intent exclusive: to change parts that are locked one by one.
    IX,
    /// Share: to read the whole.
    S,
    /// Update: to read the whole, and to change it later. Others may read it meanwhile, but none of them may have it in
    /// this mode: of two that mean to change what they read, the second waits before it reads.
    U,
    /// Share with intent exclusive: to read the whole, and to change parts that are locked one by one.
    SIX,
    /// Exclusive: to change the whole.
    X,
}

/// The interest that a mode stands for in the lock table.
#[derive(Clone, Copy, Debug, PartialEq, Eq)]
pub enum Class {
    Share,
    Exclusive,
}

/// What a member has in an entry of the lock table: the classes of its locks that fall on the entry.
#[derive(Clone, Copy, Debug, PartialEq, Eq)]
pub struct Interest {
    pub share: bool,
    pub exclusive: bool,
}
