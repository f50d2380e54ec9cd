//! What a history is made of.
use std::snapshot::Snapshot;
use turn_gate::Laid;

/// Before the first event: the value, and the part of each caller, the first caller's first.
#[derive(Drop)]
pub struct Start<M, P> {
    pub value: Snapshot<M>,
    pub parts: Snapshot<Vec<Laid<P>>>,
}

/// An event, and after it the value and its caller's part.
#[derive(Drop)]
pub struct Step<M, P> {
    pub event: u64,
    pub value: Snapshot<M>,
    pub part: Snapshot<P>,
}
