use crate::span::{Passage, Span, Wait};

/// What has been read.
#[derive(Drop)]
pub struct Spans {
    /// In the order of their first events.
    pub spans: Vec<Span>,
    /// The numbers of those that drew a commit, in the order in which they did.
    pub commits: Vec<usize>,
    pub waits: Vec<Wait>,
    pub pages: Vec<Passage>,
}
