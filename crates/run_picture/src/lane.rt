/// A lane, by where it begins and where it ends.
#[derive(Clone, Copy, Debug, PartialEq, Eq)]
pub struct Lane {
    pub top: u64,
    pub bottom: u64,
}
